// Cases of the stored vectors. Standard input is a row of blocks, each with its length in bytes first (four bytes, little-endian). A case is a
// label, a block of numbers that holds the task set and what the call is given besides, a block with the frame's numbers where that one says that there is a
// frame, and a block for each lent slice: what it holds before the call. A number has four bytes, a tick eight.
#![tactic(auto)]

ghost use Rattle.std.specs.Prelude.{◌+◌, ◌≤◌, ◌<◌, ◌≡◌, not, eqb, ◌-◌, length, get_or, take, drop, replicate, is_some};
ghost use Rattle.io.specs.Counts.{IsPrefixLen};
ghost use Rattle.cases.specs.Cases.{number_at, tick_at, entry_of, Numbers, SetIn};

use frame::Frame;
use refusal::Refusal;
use taskset::{Task, TaskSet};

// Standard input.
const STDIN_FILENO: i32 = 0;
// Standard output.
const STDOUT_FILENO: i32 = 1;

// The number of the four bytes from a place on, the low byte first.
fn number_at(s: &[u8], at: usize) -> u32
    requires { at + 4 ≤ length s.now }
    ensures { result ≡ number_at s.now at }
{
    u32::from(s[at])
        + 256 * u32::from(s[at + 1])
        + 65536 * u32::from(s[at + 2])
        + 16777216 * u32::from(s[at + 3])
}

// The number of the eight bytes from a place on, the low four first.
fn tick_at(s: &[u8], at: usize) -> u64
    requires { at + 8 ≤ length s.now }
    ensures { result ≡ tick_at s.now at }
{
    u64::from(number_at(s, at)) + 4294967296 * u64::from(number_at(s, at + 4))
}

// Reads a block to the start of a buffer, as far as the buffer goes; the answer is how many bytes were read.
pub fn read_block(out: &mut [u8]) -> usize
    ensures { IsPrefixLen result out.new }
{
    let mut head = [0u8; 4];
    io::read_full(STDIN_FILENO, &mut head);
    let n = index(number_at(&head, 0)).min(out.len());
    io::read_full(STDIN_FILENO, &mut out[..n])
}

// The numbers of four bytes in a row of bytes, as many as there are slots for them; the answer is how many.
fn numbers(s: &[u8], out: &mut [u32]) -> usize
    ensures prefix_len { IsPrefixLen result out.new }
    ensures numbers { Numbers 4 number_at s.now out.old result out.new }
{
    let n = (s.len() / 4).min(out.len());
    for i in 0..n {
        out[i] = number_at(s, 4 * i);
    }
    n
}

// The ticks of eight bytes in a row of bytes, as many as there are slots for them; the answer is how many.
fn ticks(s: &[u8], out: &mut [u64]) -> usize
    ensures prefix_len { IsPrefixLen result out.new }
    ensures numbers { Numbers 8 tick_at s.now out.old result out.new }
{
    let n = (s.len() / 8).min(out.len());
    for i in 0..n {
        out[i] = tick_at(s, 8 * i);
    }
    n
}

// Reads a block of numbers to the start of a column; the answer is how many were read. The slots past them keep what they held.
pub fn read_column(out: &mut [u32]) -> usize
    ensures prefix_len { IsPrefixLen result out.new }
    ensures out_unchanged { drop result out.new ≡ drop result out.old }
{
    let mut bytes = [0u8; 4224];
    let n = read_block(&mut bytes);
    numbers(&bytes[..n], out)
}

// Reads a block of ticks to the start of a column; the answer is how many were read. The slots past them keep what they held.
pub fn read_ticks(out: &mut [u64]) -> usize
    ensures prefix_len { IsPrefixLen result out.new }
    ensures out_unchanged { drop result out.new ≡ drop result out.old }
{
    let mut bytes = [0u8; 8448];
    let n = read_block(&mut bytes);
    ticks(&bytes[..n], out)
}

// A column of a case: its slots, and how many of them, from the first on, are lent to a call.
#[derive(Drop)]
pub struct Column<T, const N: usize> {
    pub slots: [T; N],
    pub lent: usize,
    pub ghost within: { lent ≤ N },
}

impl<T, const N: usize> Column<T, N> {
    // The slots that are lent.
    pub fn as_slice(&self) -> &[T]
        ensures { result.now ≡ take self.now.lent self.now.slots }
    {
        &self.slots[..self.lent]
    }
}

// The column in the next block of numbers, as many slots of it as the block has numbers; the others hold 0.
pub fn lent_column<const N: usize>() -> Column<u32, N>
    ensures { drop result.lent result.slots ≡ replicate (N - result.lent) 0 }
{
    let mut slots = [0u32; N];
    let lent = read_column(&mut slots);
    Column { slots, lent }
}

// The same of a column of ticks.
pub fn lent_ticks<const N: usize>() -> Column<u64, N>
    ensures { drop result.lent result.slots ≡ replicate (N - result.lent) 0 }
{
    let mut slots = [0u64; N];
    let lent = read_ticks(&mut slots);
    Column { slots, lent }
}

// Reads the label of the next case and prints it; false at the end of the input.
pub fn next_case() -> bool {
    let mut label = [0u8; 128];
    let n = read_block(&mut label);
    if n == 0 {
        return false;
    }
    io::write_all(STDOUT_FILENO, &label[..n]);
    io::write_all(STDOUT_FILENO, b":");
    true
}

// A number of 32 bits as an index or a count.
pub fn index(n: u32) -> usize
    ensures { result ≡ n }
{
    n as usize
}

// The entry of a task in a block of numbers: P, J, E, D and the mark, 0 for high and any other number for low.
fn entry(head: &[u32; 168], i: usize) -> Task
    requires { i < 32 }
    ensures { result ≡ entry_of head.now i }
{
    let at = 8 + 5 * i;
    Task {
        period: head[at],
        jitter: head[at + 1],
        cost: head[at + 2],
        deadline: head[at + 3],
        low: head[at + 4] != 0,
    }
}

// The task set in a block of numbers: the count at 4, the charge in the low byte of the number at 5, the entries from 8 on.
pub fn task_set(head: &[u32; 168]) -> TaskSet
    ensures { SetIn head.now result }
{
    let charge = (head[5] % 256) as u8;
    TaskSet {
        tasks: std::array::from_fn(|i| entry(head, i)),
        count: index(head[4]),
        charge,
    }
}

// The frame of a case: none where the number at 6 is 0, else the one of the next block of numbers, which it reads; numbers past the block's end count as 0.
pub fn frame_in(head: &[u32; 168]) -> Option<Frame>
    ensures { is_some result ≡ not (eqb (get_or head.now 6 0) 0) }
{
    if head[6] == 0 {
        return None;
    }
    let mut row = [0u32; 34];
    read_column(&mut row);
    frame::frame_from(&row)
}

// Prints a blank and words.
pub fn print_words(words: &[u8]) {
    io::write_all(STDOUT_FILENO, b" ");
    io::write_all(STDOUT_FILENO, words);
}

// Prints a blank and a number.
pub fn print_number(n: u64) {
    io::write_all(STDOUT_FILENO, b" ");
    io::print_decimal(STDOUT_FILENO, n);
}

// Prints words and the number after them.
pub fn print_named(words: &[u8], n: u64) {
    print_words(words);
    print_number(n);
}

// Prints a comma.
pub fn print_comma() {
    io::write_all(STDOUT_FILENO, b",");
}

// Prints a blank and a slot, or a stroke for the largest number, which no answer is.
fn print_slot(v: u64, largest: u64) {
    if v == largest {
        print_words(b"-");
    } else {
        print_number(v);
    }
}

// Prints the slots of a column after a comma.
pub fn print_column(column: &[u32]) {
    print_comma();
    for v in column {
        print_slot(u64::from(*v), u64::from(u32::MAX));
    }
}

// Prints the slots of a column of ticks after a comma.
pub fn print_ticks(column: &[u64]) {
    print_comma();
    for v in column {
        print_slot(*v, u64::MAX);
    }
}

// Prints the mark between the two halves of a line.
pub fn print_half() {
    io::write_all(STDOUT_FILENO, b";");
}

// Prints the numbers of a task after a comma, and the word `low` for a low one.
pub fn print_task(t: Task) {
    print_comma();
    print_number(u64::from(t.period));
    print_number(u64::from(t.jitter));
    print_number(u64::from(t.cost));
    print_number(u64::from(t.deadline));
    if t.low {
        print_words(b"low");
    }
}

// Prints an entry of a task set; past the count only one that is not 0 and high.
fn print_entry(t: Task, inside: bool) {
    if !inside {
        if t.period == 0 && t.jitter == 0 && t.cost == 0 && t.deadline == 0 && !t.low {
            return;
        }
        print_words(b"past the count");
    }
    print_task(t);
}

// Prints the count of a task set and its entries.
pub fn print_task_set(set: TaskSet) {
    print_named(b"sheet", set.count as u64);
    for i in 0..32 {
        print_entry(set.tasks[i], i < set.count);
    }
}

// Prints what is printed of the empty task set: the lines of the calls that return a sheet have it on a refusal.
pub fn print_no_tasks() {
    print_named(b"sheet", 0);
}

// Prints a refusal by its number and its place.
pub fn print_refused(number: u32, place: usize) {
    print_named(b"refused", u64::from(number));
    print_named(b"at", place as u64);
}

// Prints a refusal as the programs do.
pub fn print_refusal(r: Refusal) {
    print_refused(r.reason.number(), r.place);
}

// Prints what a call answers whose results stand in lent columns.
pub fn print_checked(answer: Result<(), Refusal>) {
    match answer {
        Ok(()) => print_words(b"fine"),
        Err(r) => print_refusal(r),
    }
}

// Ends the line of a case.
pub fn end_line() {
    io::write_all(STDOUT_FILENO, b"\n");
}

// Runs case after case up to the end of the input, each given its block of numbers. A proved loop has to end, so it counts its turns, up to a number that no input
// uses up.
pub fn run_cases<F: Fn(&[u32; 168])>(case: F)
    requires { F.IsAlwaysCallable case }
{
    for _ in 0..u64::MAX {
        if !next_case() {
            return;
        }
        let mut head = [0u32; 168];
        read_column(&mut head);
        case(&head);
        end_line();
    }
}
