// What passes between C and the calls: a sheet as numbers, a refusal as a code, an answer as words in a lent slice.
// A code is 0, or number · 2^32 + place of a refusal.
#![tactic(auto)]

ghost use Rattle.std.specs.Prelude.{◌≡◌, ◌+◌, ◌≤◌, ◌<◌, ◌++◌, length, drop};
ghost use Rattle.std.proofs.Math.Option.{some};
ghost use Rattle.std.proofs.lemmas.List.Edits.{sets};
ghost use Rattle.model.specs.Refusal.{answered};
ghost use Rattle.refusal.specs.Refusal.{refusal_in, number_of};
ghost use Rattle.interface.specs.Interface.{task_at, sheet_from, refusal_code, code_of, after_slots, or_too_few, Ends};
ghost use Rattle.interface.specs.TaskNumbers.{mark_number, task_numbers, numbers_of};

use numbers::number_at;
use refusal::{Reason, Refusal};
use taskset::{Task, TaskSet};

// The entry of task i in a sheet passed as numbers.
pub fn task_at(sheet: &[u32], i: usize) -> Task
    requires { i < 32 }
    ensures { result ≡ task_at sheet.now i }
{
    let period = number_at(sheet, 5 * i);
    let jitter = number_at(sheet, 5 * i + 1);
    let cost = number_at(sheet, 5 * i + 2);
    let deadline = number_at(sheet, 5 * i + 3);
    let mark = number_at(sheet, 5 * i + 4);
    Task {
        period,
        jitter,
        cost,
        deadline,
        low: mark != 0,
    }
}

// The sheet of numbers, a count and a charge. Entries past the count are 0.
pub fn sheet_from(sheet: &[u32], count: u32, charge: u8) -> TaskSet
    ensures { result ≡ sheet_from sheet.now count charge }
{
    let none = Task {
        period: 0,
        jitter: 0,
        cost: 0,
        deadline: 0,
        low: false,
    };
    let mut tasks = [none; 32];
    let used = count.min(32) as usize;
    for i in 0..used {
        let t = task_at(sheet, i);
        tasks[i] = t;
    }
    TaskSet {
        tasks,
        count: count as usize,
        charge,
    }
}

// The number and the place of a refusal as one number.
pub fn number_code(number: u32, place: usize) -> u64
    ensures { result ≡ refusal_code number place }
{
    u64::from(number) * 4294967296 + (place as u64) % 4294967296
}

// A refusal as one number.
pub fn refusal_code(r: Refusal) -> u64
    ensures { result ≡ refusal_code (number_of r.reason) r.place }
{
    number_code(r.reason.number(), r.place)
}

// The code of a call to which too few slots are lent.
pub fn short_code(needed: usize) -> u64
    ensures { result ≡ refusal_code 13 needed }
{
    refusal_code(Refusal {
        reason: Reason::ShortSlice,
        place: needed,
    })
}

// What a call returns that answers in columns.
pub fn code_of(checked: Result<(), Refusal>) -> u64
    ensures { result ≡ code_of (refusal_in checked) }
{
    match checked {
        Ok(()) => 0,
        Err(r) => refusal_code(r),
    }
}

// Whether a call on values checks for this number after its lent slices.
fn after_slots(number: u32) -> bool
    ensures { result ≡ after_slots number }
{
    if number < 7 {
        return false;
    }
    if number <= 9 {
        return true;
    }
    if number == 12 {
        return true;
    }
    if number < 19 {
        return number == 15;
    }
    number <= 20
}

// The code of a call refused with this number and place that also needs so many slots for its answer.
pub fn number_slots_code(number: u32, place: usize, needed: usize, slots: usize) -> u64
    ensures { result ≡ code_of (some (or_too_few needed slots (record { number = number; place = place }))) }
{
    if needed <= slots {
        return number_code(number, place);
    }
    if after_slots(number) {
        return short_code(needed);
    }
    number_code(number, place)
}

// The code of a refused call that also needs so many slots for its answer.
pub fn slots_code(r: Refusal, needed: usize, slots: usize) -> u64
    ensures { result ≡ code_of (some (or_too_few needed slots (record { number = number_of r.reason; place = r.place }))) }
{
    number_slots_code(r.reason.number(), r.place, needed, slots)
}

// Puts the words of an answer, or refuses 13.
pub fn put_words(answer: &mut [u64], words: &[u64]) -> u64
    ensures { Ends (length words.now) (answered words.now) answer.old result answer.new }
{
    let n = words.len();
    if answer.len() < n {
        return short_code(n);
    }
    answer[..n].copy_from_slice(words);
    0
}

// A mark as a number: 0 for high, 1 for low.
fn mark_number(low: bool) -> u32
    ensures { result ≡ mark_number low }
{
    if low { 1 } else { 0 }
}

// Writes the five numbers of a task.
fn put_task(sheet: &mut [u32], at: usize, t: Task)
    requires { at + 5 ≤ length sheet.old }
    ensures { sheet.new ≡ sets sheet.old at (task_numbers t) }
{
    sheet[at] = t.period;
    sheet[at + 1] = t.jitter;
    sheet[at + 2] = t.cost;
    sheet[at + 3] = t.deadline;
    sheet[at + 4] = mark_number(t.low);
}

// Writes the 160 numbers of a sheet.
pub fn put_sheet(s: TaskSet, sheet: &mut [u32])
    requires { 160 ≤ length sheet.old }
    ensures { sheet.new ≡ numbers_of s.tasks ++ drop (length (numbers_of s.tasks)) sheet.old }
{
    for i in 0..32 {
        let t = s.tasks[i];
        put_task(sheet, 5 * i, t);
    }
}
