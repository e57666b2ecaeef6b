// What each program prints for the bytes of a file or of a text sheet, written into a lent buffer.
#![tactic(auto)]

ghost use Rattle.std.specs.Prelude.{◌≡◌, ◌≤◌, length};
ghost use Rattle.std.proofs.Math.Option.{none};
ghost use Rattle.model.specs.Checks.{check_tasks};
ghost use Rattle.model.specs.Choice.{choice};
ghost use Rattle.taskset.specs.TaskSet.{view_of};
ghost use Rattle.loader.specs.Pieces.{Fed};
ghost use Rattle.answers.specs.Answers.{sheet_text, choose_text, list_text, replay_text, Printed, PrintedFed};
ghost use Rattle.answers.specs.Listed.{Listed};
ghost use Rattle.answers.specs.Tried.{ChosenIs, Tried, TriedFed, OrRefusal};
ghost use Rattle.releases.specs.Over.{over};

use choice::Extent;
use loader::Loader;
use refusal::Refusal;
use releases::Releases;
use taskset::TaskSet;

// The columns of a choice that was made, and which of the two it is.
#[derive(Clone, Copy)]
struct Chosen {
    keep: [u32; 32],
    worst: [u32; 32],
    extent: Extent,
}

// The choice of a task set.
fn choose(s: TaskSet) -> Result<Chosen, Refusal>
    requires { none ≡ check_tasks (view_of s) }
    ensures { ChosenIs (view_of s) result }
{
    let mut keep: [u32; 32] = [0; 32];
    let mut worst: [u32; 32] = [0; 32];
    let extent = choice::choose(s, None, &mut keep, &mut worst)?;
    Ok(Chosen {
        keep,
        worst,
        extent,
    })
}

// The text of the choice of a task set.
fn put_chosen(s: TaskSet, out: &mut [u8]) -> Result<usize, Refusal>
    requires { (none ≡ check_tasks (view_of s)) × (2560 ≤ length out.old) }
    ensures { Tried 2560 out.old (sheet_text (view_of s)) out.new result }
{
    let c = choose(s)?;
    Ok(report::put_choice(out, s, &c.keep, &c.worst, c.extent == Extent::HighOnly))
}

// The text of the run of n releases with the kept jitters of whichever choice was made.
fn put_replayed(s: TaskSet, list: &Releases, out: &mut [u8]) -> Result<usize, Refusal>
    requires { over (Listed (view_of s)) list.now × (108608 ≤ length out.old) }
    ensures { Tried 108608 out.old (over (list_text (view_of s)) list.now (choice (view_of s))) out.new result }
{
    let c = choose(s)?;
    let mut ready: [u64; 1024] = [0; 1024];
    let mut finish: [u64; 1024] = [0; 1024];
    jumps::run(s, None, &c.keep, list, &mut ready, &mut finish)?;
    Ok(report::put_run(out, list.count, list.task, list.tick, &ready, &finish))
}

// The choice of a file.
fn choose_file(file: &[u8], out: &mut [u8]) -> Result<usize, Refusal>
    requires { 2560 ≤ length out.old }
    ensures { Tried 2560 out.old (choose_text file.now) out.new result }
{
    let got = reader::read(file, &mut [0; 1024], &mut [0; 1024], &mut [0; 1024])?;
    put_chosen(got.tasks, out)
}

// The run of a file's releases.
fn replay_file(file: &[u8], out: &mut [u8]) -> Result<usize, Refusal>
    requires { 108608 ≤ length out.old }
    ensures { Tried 108608 out.old (replay_text file.now) out.new result }
{
    let mut task: [u32; 1024] = [0; 1024];
    let mut tick: [u64; 1024] = [0; 1024];
    let mut cost: [u32; 1024] = [0; 1024];
    let got = reader::read(file, &mut task, &mut tick, &mut cost)?;
    let list = Releases {
        count: got.releases,
        task: &task,
        tick: &tick,
        cost: &cost,
    };
    put_replayed(got.tasks, &list, out)
}

// The choice of a loader that was fed a text.
fn choose_fed(l: Loader, out: &mut [u8]) -> Result<usize, Refusal>
    requires { Fed l × (2560 ≤ length out.old) }
    ensures { TriedFed 2560 l out.old out.new result }
{
    put_chosen(loader::finish(l)?, out)
}

// The end of a program's text: that of a refusal is written here.
fn or_refusal(tried: Result<usize, Refusal>, out: &mut [u8]) -> usize
    requires { 64 ≤ length out.old }
    ensures { OrRefusal tried out.old out.new result }
{
    match tried {
        Ok(m) => m,
        Err(r) => report::put_refusal(out, r),
    }
}

// What the first program prints after a read of n bytes into its buffer: the choice, or a refusal.
pub fn choose_text(file: &[u8; 14932], n: usize, out: &mut [u8]) -> usize
    requires { (n ≤ length file.now) × (2560 ≤ length out.old) }
    ensures { Printed choose_text 2560 file.now n out.old out.new result }
{
    or_refusal(choose_file(&file[..n], out), out)
}

// What the second program prints after a read of n bytes into its buffer: the run with the chosen kept jitters, or a refusal.
pub fn replay_text(file: &[u8; 14932], n: usize, out: &mut [u8]) -> usize
    requires { (n ≤ length file.now) × (108608 ≤ length out.old) }
    ensures { Printed replay_text 108608 file.now n out.old out.new result }
{
    or_refusal(replay_file(&file[..n], out), out)
}

// What the third program prints for a loader that was fed a text: the choice, or a refusal with the line's number.
pub fn choose_csv_text(l: Loader, out: &mut [u8]) -> usize
    requires { Fed l × (2560 ≤ length out.old) }
    ensures { PrintedFed 2560 l out.old out.new result }
{
    or_refusal(choose_fed(l, out), out)
}
