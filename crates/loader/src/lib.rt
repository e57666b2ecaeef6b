// Loader of text sheets: one pass over the bytes with a small state, which goes in with a piece of text and comes back.
#![tactic(auto)]

ghost use Rattle.std.specs.Prelude.{◌≡◌, ◌+◌, ◌*◌, ◌<◌, min};
ghost use Rattle.textformat.specs.TextSheet.{load as loadText};
ghost use Rattle.loader.specs.Loader.{cap, no_line, with_digit, with_comma, after_zero, taken, fresh, going, stepped, fed, begun, decided, LoadSays, Finishes};

use refusal::{Reason, Refusal};
use taskset::{Task, TaskSet};

// What is read of a line: how many commas, whether the present field has a digit, its number, and the last three numbers before it, the oldest first, 0 where
// there are fewer. A number over every limit counts as 1,000,001, however many its digits are.
#[derive(Clone, Copy)]
pub struct LineSoFar {
    pub commas: u32,
    pub digit: bool,
    pub value: u32,
    pub first: u32,
    pub second: u32,
    pub third: u32,
}

// What a byte does to a line: it goes on, it ends with a task, or it has another form. Three cases, so neither Option nor Result.
#[derive(Clone, Copy)]
pub enum Taken {
    Goes { line: LineSoFar },
    Ends { task: Task },
    Broken,
}

// A loader: the tasks of the lines before, what is read of the present line, and whether the text is refused already. It is made by `start` and `feed`; of a
// value made otherwise the calls promise their equations alone, and nothing about a text.
#[derive(Clone, Copy)]
pub struct Loader {
    pub tasks: TaskSet,
    pub line: LineSoFar,
    pub answer: Result<(), Refusal>,
}

// The number with one digit more, or 1,000,001 where it is larger.
fn more(value: u32, digit: u32) -> u32
    ensures { result ≡ min cap (10 * value + digit) }
{
    let n = 10 * u64::from(value) + u64::from(digit);
    n.min(1000001) as u32
}

// Nothing of a line.
fn no_line() -> LineSoFar
    ensures { result ≡ no_line }
{
    LineSoFar {
        commas: 0,
        digit: false,
        value: 0,
        first: 0,
        second: 0,
        third: 0,
    }
}

// Whether the digits of the present field are a lone 0.
fn after_zero(m: LineSoFar) -> bool
    ensures { result ≡ after_zero m }
{
    m.digit && m.value == 0
}

// One digit more.
fn with_digit(m: LineSoFar, digit: u32) -> LineSoFar
    ensures { result ≡ with_digit m digit }
{
    LineSoFar {
        digit: true,
        value: more(m.value, digit),
        ..m
    }
}

// A comma after the present number.
fn with_comma(m: LineSoFar) -> LineSoFar
    requires { m.commas < 3 }
    ensures { result ≡ with_comma m }
{
    LineSoFar {
        commas: m.commas + 1,
        digit: false,
        value: 0,
        first: m.second,
        second: m.third,
        third: m.value,
    }
}

// What a byte does to a line.
fn take_byte(m: LineSoFar, b: u8) -> Taken
    ensures { result ≡ taken m b }
{
    if b.is_ascii_digit() {
        if after_zero(m) {
            return Taken::Broken;
        }
        return Taken::Goes {
            line: with_digit(m, u32::from(b - b'0')),
        };
    }
    if !m.digit {
        return Taken::Broken;
    }
    if b == b',' {
        if 3 <= m.commas {
            return Taken::Broken;
        }
        return Taken::Goes {
            line: with_comma(m),
        };
    }
    if b != b'\n' {
        return Taken::Broken;
    }
    if m.commas != 3 {
        return Taken::Broken;
    }
    let task = Task {
        period: m.first,
        jitter: m.second,
        cost: m.third,
        deadline: m.value,
        low: false,
    };
    Taken::Ends { task }
}

// A loader to which nothing is fed yet.
pub fn start() -> Loader
    ensures { result ≡ fresh }
{
    Loader {
        tasks: entries::no_tasks(),
        line: no_line(),
        answer: Ok(()),
    }
}

// What a byte does to the tasks and the line of a loader that is not refused: a refusal leaves both.
fn step(tasks: &mut TaskSet, line: &mut LineSoFar, b: u8) -> Result<(), Refusal>
    ensures { record { tasks = tasks.new; line = line.new; answer = result } ≡ stepped (going tasks.old line.old) b }
{
    let n = tasks.count;
    match take_byte(*line, b) {
        Taken::Goes { line: next } => *line = next,
        Taken::Ends { task } => {
            entries::check_task(0, n, 0, n, task)?;
            tasks.tasks[n] = task;
            tasks.count = n + 1;
            *line = no_line();
        }
        Taken::Broken => {
            return Err(Refusal {
                reason: Reason::Line,
                place: n,
            });
        }
    }
    Ok(())
}

// Feeds a piece of text, byte by byte, and stops looking once the text is refused.
pub fn feed(l: Loader, piece: &[u8]) -> Loader
    ensures { result ≡ fed l piece.now }
{
    if l.answer.is_err() {
        return l;
    }
    let mut tasks = l.tasks;
    let mut line = l.line;
    for &b in piece {
        if let Err(refusal) = step(&mut tasks, &mut line, b) {
            return Loader {
                tasks,
                line,
                answer: Err(refusal),
            };
        }
    }
    Loader {
        tasks,
        line,
        answer: Ok(()),
    }
}

// Whether the answer is decided, whatever follows.
pub fn is_decided(l: Loader) -> bool
    ensures { result ≡ decided l }
{
    l.answer.is_err()
}

// Whether a line has begun that no line feed has ended.
fn has_begun(m: LineSoFar) -> bool
    ensures { result ≡ begun m }
{
    m.digit || 0 < m.commas
}

// The end of the text: a refusal made before, 16 for a line that no line feed ends, 5 for no line, else the tasks.
pub fn finish(l: Loader) -> Result<TaskSet, Refusal>
    ensures { Finishes l result }
{
    l.answer?;
    if has_begun(l.line) {
        return Err(Refusal {
            reason: Reason::Line,
            place: l.tasks.count,
        });
    }
    if l.tasks.count == 0 {
        return Err(Refusal {
            reason: Reason::NoTask,
            place: 0,
        });
    }
    Ok(l.tasks)
}

// Loads a whole text.
pub fn load(text: &[u8]) -> Result<TaskSet, Refusal>
    ensures { LoadSays (loadText text.now) result }
{
    finish(feed(start(), text))
}
