// Writer of the file.
#![tactic(auto)]

ghost use Rattle.std.specs.Prelude.{◌≡◌, true, List, ◌∷◌, map, ℕ, ◌≤◌, ◌+◌, ◌%◌, length};
ghost use Rattle.std.proofs.Math.Option.{none};
ghost use Rattle.model.specs.Calls.{releases_of};
ghost use Rattle.releases.specs.Releases.{release};
ghost use Rattle.fileformat.specs.Numbers.{bytes_of};
ghost use Rattle.fileformat.specs.Records.{width_in, task_record, task_size, task_bytes, release_bytes, release_size, width_for, written_record};
ghost use Rattle.fileformat.specs.File.{charge_records, joined};
ghost use Rattle.model.specs.Checks.{refusal_of};
ghost use Rattle.refusal.specs.Refusal.{refusal_in};
ghost use Rattle.taskset.specs.TaskSet.{view_of};
ghost use Rattle.fileformat.specs.FileCalls.{tasks_in, charge_bytes, tasks_bytes, sheet_bytes, list_bytes, write_inputs};
ghost use Rattle.writer.specs.Writer.{stored, number_bytes, sheet_part, part, Alike, Rising, Cut, WriteSays};
ghost use Rattle.releases.specs.Over.{over};

use refusal::{Reason, Refusal};
use releases::Releases;
use taskset::{Task, TaskSet};

// The low byte of a number.
fn low(n: u32) -> u8
    ensures { result ≡ n % 256 }
{
    (n % 256) as u8
}

// Writes the four bytes of a number, the low byte first.
fn put_number(out: &mut [u8], at: usize, n: u32)
    requires { at + 4 ≤ length out.old }
    ensures { out.new ≡ stored out.old at (bytes_of 4 n) }
{
    out[at] = low(n);
    let a = n / 256;
    out[at + 1] = low(a);
    let b = a / 256;
    out[at + 2] = low(b);
    let c = b / 256;
    out[at + 3] = low(c);
}

// Writes the eight bytes of a number, the low byte first.
fn put_wide_number(out: &mut [u8], at: usize, n: u64)
    requires { at + 8 ≤ length out.old }
    ensures { out.new ≡ stored out.old at (bytes_of 8 n) }
{
    put_number(out, at, (n % 4294967296) as u32);
    put_number(out, at + 4, (n / 4294967296) as u32);
}

// Writes the kind and the four numbers of a task record.
fn put_numbers(out: &mut [u8], at: usize, kind: u8, t: Task)
    requires { at + 17 ≤ length out.old }
    ensures { out.new ≡ stored out.old at (kind ∷ number_bytes t) }
{
    out[at] = kind;
    put_number(out, at + 1, t.period);
    put_number(out, at + 5, t.jitter);
    put_number(out, at + 9, t.cost);
    put_number(out, at + 13, t.deadline);
}

// Writes a task record: kind 1, or kind 6 with a last byte 0 where the task is low.
fn put_task(out: &mut [u8], at: usize, t: Task)
    requires { at + task_size t.low ≤ length out.old }
    ensures { out.new ≡ stored out.old at (task_bytes t) }
{
    if t.low {
        put_numbers(out, at, 6, t);
        out[at + 17] = 0;
        return;
    }
    put_numbers(out, at, 1, t);
}

// Writes the kind and the task number with which a release record begins.
fn put_head(out: &mut [u8], at: usize, kind: u8, task: u32)
    requires { at + 2 ≤ length out.old }
    ensures { out.new ≡ stored out.old at (kind ∷ bytes_of 1 task) }
{
    out[at] = kind;
    out[at + 1] = low(task);
}

// Writes a release record: kind 2, or kind 4 where it is a long one.
fn put_release(out: &mut [u8], at: usize, long: bool, task: u32, tick: u64, cost: u32)
    requires { (at + release_size (width_in long) ≤ length out.old) × (width_for tick ≡ width_in long) }
    ensures { out.new ≡ stored out.old at (release_bytes (width_in long) (release task tick cost)) }
{
    if long {
        put_head(out, at, 4, task);
        put_wide_number(out, at + 2, tick);
        put_number(out, at + 10, cost);
        return;
    }
    put_head(out, at, 2, task);
    put_number(out, at + 2, tick as u32);
    put_number(out, at + 6, cost);
}

// The place in a list from which on every tick is over 1,000,000,000, while the one before it is not.
fn short_count(count: usize, tick: &[u64]) -> usize
    requires { count ≤ length tick.now }
    ensures { Cut count tick.now result }
{
    for k in (0..count).rev() {
        if tick[k] <= 1000000000 {
            return k + 1;
        }
    }
    0
}

// Whether a tick is over 1,000,000,000, and so its record is long.
fn is_long(tick: u64) -> bool
    ensures { width_for tick ≡ width_in result }
{
    1000000000 < tick
}

// The bytes of the release records of a list with any ticks.
fn counted_size(count: usize, tick: &[u64]) -> usize
    requires { (count ≤ 1024) × (count ≤ length tick.now) }
    ensures { (task cost : List ℕ) → result ≡ list_bytes (releases_of count task tick.now cost) }
{
    let mut size = 0;
    for i in 0..count {
        size += entries::release_size(is_long(tick[i]));
    }
    size
}

// The bytes of the release records of a list. Where its ticks never fall, the long records are the last, and no other tick is looked at.
fn list_size(count: usize, tick: &[u64], rising: bool) -> usize
    requires { (count ≤ 1024) × (count ≤ length tick.now) × (rising ≡ true → Rising count tick.now) }
    ensures { (task cost : List ℕ) → result ≡ list_bytes (releases_of count task tick.now cost) }
{
    if rising {
        return 14 * count - 4 * short_count(count, tick);
    }
    counted_size(count, tick)
}

// Writes the record of a charge, where it is not 0.
fn put_charge(out: &mut [u8], charge: u8)
    requires { charge_bytes charge ≤ length out.old }
    ensures { out.new ≡ stored out.old 0 (joined (charge_records charge)) }
{
    if charge == 0 {
        return;
    }
    out[0] = 5;
    out[1] = charge;
}

// Writes the task records of a sheet from an offset on; the answer is the offset after them.
fn put_tasks(out: &mut [u8], from: usize, s: TaskSet) -> usize
    requires { (s.count ≤ 32) × (from + tasks_bytes (view_of s) s.count ≤ length out.old) × (s.count ≤ length s.tasks) }
    ensures bytes { out.new ≡ stored out.old from (joined (map task_record (tasks_in s))) }
    ensures end { result ≡ from + tasks_bytes (view_of s) s.count }
{
    let count = s.count;
    let mut at = from;
    for i in 0..count {
        let t = s.tasks[i];
        put_task(out, at, t);
        at += entries::task_size(t.low);
    }
    at
}

// Writes the records of a sheet, its charge and its tasks; the answer is the offset after them.
fn put_sheet(out: &mut [u8], s: TaskSet) -> usize
    requires { (s.count ≤ 32) × (sheet_bytes (view_of s) ≤ length out.old) × (s.count ≤ length s.tasks) }
    ensures bytes { out.new ≡ stored out.old 0 (sheet_part s) }
    ensures end { result ≡ sheet_bytes (view_of s) }
{
    put_charge(out, s.charge);
    put_tasks(out, entries::charge_size(s.charge), s)
}

// Writes the release records of a list from a place up to another, all of one kind; the answer is the offset after them.
fn put_part(
    out: &mut [u8],
    from: usize,
    first: usize,
    last: usize,
    long: bool,
    task: &[u32],
    tick: &[u64],
    cost: &[u32],
) -> usize
    requires { (from + list_bytes (part first last task.now tick.now cost.now) ≤ length out.old)
        × (first ≤ last)
        × (last ≤ length task.now)
        × (last ≤ length tick.now)
        × (last ≤ length cost.now)
        × Alike (width_in long) first last tick.now }
    ensures bytes { out.new
        ≡ stored out.old from (joined (map written_record (part first last task.now tick.now cost.now))) }
    ensures end { result ≡ from + list_bytes (part first last task.now tick.now cost.now) }
{
    let size = entries::release_size(long);
    let mut at = from;
    for i in first..last {
        put_release(out, at, long, task[i], tick[i], cost[i]);
        at += size;
    }
    at
}

// The checks of a write: the sheet (5, 4, 6, 17), the count (10), the columns and then the bytes (13), the releases (7, 8, 9). The releases are
// looked at before the bytes are counted: where they pass, the ticks never fall, and the bytes are known by the last ticks.
pub fn check_write(s: TaskSet, list: &Releases, room: usize) -> Result<(), Refusal>
    ensures { refusal_in result ≡ refusal_of (over (write_inputs (view_of s)) list.now room) }
{
    taskset::check(s)?;
    releases::check_count(list.count)?;
    releases::check_columns(list.count, list.task, list.tick, list.cost)?;
    let listed = releases::check_releases(s, 0, list);
    let sized = entries::sheet_size(s);
    let end = sized + list_size(list.count, list.tick, listed.is_ok());
    if room <= end {
        return Err(Refusal {
            reason: Reason::ShortSlice,
            place: end + 1,
        });
    }
    listed
}

// Writes a sheet and a list of releases as a file; the answer is the number of bytes written. A refusal changes no byte; bytes past the file keep what they held.
pub fn write(s: TaskSet, list: &Releases, out: &mut [u8]) -> Result<usize, Refusal>
    ensures { over (WriteSays s) list.now out.old result out.new }
{
    check_write(s, list, out.len())?;
    let start = put_sheet(out, s);
    let shorts = short_count(list.count, list.tick);
    let middle = put_part(
        out, start, 0, shorts, false, list.task, list.tick, list.cost,
    );
    let end = put_part(
        out, middle, shorts, list.count, true, list.task, list.tick, list.cost,
    );
    out[end] = 3;
    Ok(end + 1)
}
