// The trace check and the ready ticks of a list of releases: one shaper for each task of the sheet.
#![tactic(auto)]

ghost use Rattle.std.specs.Prelude.{◌≡◌, List, [], ◌++◌, ℕ, ◌≤◌, ◌<◌, min, length, drop};
ghost use Rattle.model.specs.Limits.{max_tasks};
ghost use Rattle.model.specs.Choice.{column};
ghost use Rattle.model.specs.Checks.{check_slots, refusal_of};
ghost use Rattle.model.specs.Ready.{ready_list};
ghost use Rattle.model.specs.Legality.{first_close};
ghost use Rattle.model.specs.Calls.{releases_of, column_after, trace_call, ready_inputs};
ghost use Rattle.refusal.specs.Refusal.{refusal_in, option_in};
ghost use Rattle.taskset.specs.TaskSet.{view_of};
ghost use Rattle.trace.specs.Standing.{Standing};
ghost use Rattle.trace.specs.TraceCalls.{trace_in, slots_lent, call_inputs, Shapable};
ghost use Rattle.releases.specs.Over.{over};

use refusal::{Reason, Refusal};
use releases::Releases;
use shaper::Shaper;
use taskset::TaskSet;

// One shaper for each task of a sheet. Entries past the count are of no task.
#[derive(Clone, Copy)]
pub struct Shapers {
    pub of: [Shaper; 32],
}

// The shapers before the first release, with the kept jitters.
fn kept_shapers(s: TaskSet, kept: &[u32]) -> Shapers
    requires { (s.count ≤ max_tasks) × (s.count ≤ length kept.now) }
    ensures { Standing (view_of s).period (column kept.now) (λ i. []) s.count result.of }
{
    let count = s.count;
    let unused = Shaper::new(0, 0);
    let mut all = Shapers { of: [unused; 32] };
    for i in 0..count {
        let t = s.tasks[i];
        all.of[i] = Shaper::new(t.period, kept[i]);
    }
    all
}

// The shapers before the first release, with the full jitters. Apart from kept_shapers: to fill a column of jitters for it is no plainer.
fn full_shapers(s: TaskSet) -> Shapers
    requires { s.count ≤ max_tasks }
    ensures { Standing (view_of s).period (view_of s).jitter (λ i. []) s.count result.of }
{
    let count = s.count;
    let unused = Shaper::new(0, 0);
    let mut all = Shapers { of: [unused; 32] };
    for i in 0..count {
        let row = s.tasks[i];
        all.of[i] = Shaper::new(row.period, row.jitter);
    }
    all
}

// The ready ticks of a list that passed its check, written to the first slots of a column: each release goes through its task's shaper.
pub fn fill_ready(
    s: TaskSet,
    kept: &[u32],
    count: usize,
    task: &[u32],
    tick: &[u64],
    ready: &mut [u64],
)
    requires { Shapable (view_of s) count task.now tick.now × (s.count ≤ length kept.now) × (count ≤ length ready.old) }
    ensures { (cost : List ℕ) → ready.new ≡ ready_list (view_of s) (column kept.now)
        (releases_of count task.now tick.now cost) ++ drop count ready.old }
{
    let mut all = kept_shapers(s, kept);
    for p in 0..count {
        let i = task[p] as usize;
        let state = all.of[i];
        let got = state.shape(tick[p]);
        all.of[i] = got.state;
        ready[p] = got.ready;
    }
}

// The first release that is too close to an earlier one of its task, in a list that passed its check: the first that the shapers with the
// full jitters would move. None: the list is legal.
fn first_close(s: TaskSet, list: &Releases) -> Option<usize>
    requires { Shapable (view_of s) list.now.count list.now.task.now list.now.tick.now }
    ensures { (cost : List ℕ) → option_in result ≡ first_close (view_of s) (releases_of list.now.count list.now.task.now list.now.tick.now cost) }
{
    let Releases {
        count,
        task,
        tick,
        ..
    } = *list;
    let mut all = full_shapers(s);
    for p in 0..count {
        let i = task[p] as usize;
        let at = tick[p];
        let state = all.of[i];
        let got = state.shape(at);
        if at < got.ready {
            return Some(p);
        }
        all.of[i] = got.state;
    }
    None
}

// The trace check of a list of releases, after the checks of sheet and list: the first release that is too close to an earlier one of its
// task, or none where the list is legal.
pub fn check_trace(s: TaskSet, list: &Releases) -> Result<Option<usize>, Refusal>
    ensures { trace_in result ≡ over (trace_call (view_of s)) list.now }
{
    releases::check_list(s, list)?;
    Ok(first_close(s, list))
}

// The lent slices of a call with kept jitters and a list: 13 at the first that is too short. `slots` is the length of the shortest column
// that the call writes by release.
fn check_slots(tasks: usize, kept: &[u32], list: &Releases, slots: usize) -> Result<(), Refusal>
    ensures { refusal_in result ≡ check_slots (over (slots_lent tasks kept.now) list.now slots) }
{
    if kept.len() < tasks {
        return Err(Refusal {
            reason: Reason::ShortSlice,
            place: tasks,
        });
    }
    releases::check_columns(list.count, list.task, list.tick, list.cost)?;
    if slots < list.count {
        return Err(Refusal {
            reason: Reason::ShortSlice,
            place: list.count,
        });
    }
    Ok(())
}

// The checks of a call with kept jitters and a list: the sheet (5, 4, 6, 17), the list's count (10), the lent slices (13), the kept jitters (12),
// the releases (7, 8, 9).
pub fn check_call(s: TaskSet, kept: &[u32], list: &Releases, slots: usize) -> Result<(), Refusal>
    ensures { refusal_in result ≡ refusal_of (over (call_inputs (view_of s) kept.now) list.now slots) }
{
    taskset::check(s)?;
    releases::check_count(list.count)?;
    check_slots(s.count, kept, list, slots)?;
    taskset::check_kept(s, kept)?;
    releases::check_releases(s, 0, list)
}

// The checks of a call to which two columns for its answer are lent, of so many slots.
pub fn check_two(
    s: TaskSet,
    kept: &[u32],
    list: &Releases,
    first: usize,
    second: usize,
) -> Result<(), Refusal>
    ensures { refusal_in result
        ≡ refusal_of (over (call_inputs (view_of s) kept.now) list.now (min first second)) }
{
    check_call(s, kept, list, first.min(second))
}

// The checks of a call to which a column for ready ticks and another of so many slots are lent, and where they pass the ready ticks of the
// list with kept jitters, written to the first slots of `ready`. A refusal leaves the column as it was.
pub fn check_and_shape(
    s: TaskSet,
    kept: &[u32],
    list: &Releases,
    ready: &mut [u64],
    slots: usize,
) -> Result<(), Refusal>
    ensures refusal { refusal_in result
        ≡ refusal_of (over (call_inputs (view_of s) kept.now) list.now
        (min (length ready.old) slots)) }
    ensures ticks { ready.new
        ≡ column_after (refusal_in result)
        (ready_list (view_of s) (column kept.now) (over releases_of list.now)) ready.old }
{
    check_two(s, kept, list, ready.len(), slots)?;
    fill_ready(s, kept, list.count, list.task, list.tick, ready);
    Ok(())
}

// The ready ticks of a list with kept jitters, written to the first slots of `ready`, or a refusal.
pub fn ready_ticks(
    s: TaskSet,
    kept: &[u32],
    list: &Releases,
    ready: &mut [u64],
) -> Result<(), Refusal>
    ensures refusal { refusal_in result
        ≡ refusal_of (over (ready_inputs (view_of s) kept.now) list.now ready.old) }
    ensures ticks { ready.new
        ≡ column_after (refusal_of (over (ready_inputs (view_of s) kept.now) list.now ready.old))
        (ready_list (view_of s) (column kept.now) (over releases_of list.now)) ready.old }
{
    let slots = ready.len();
    check_and_shape(s, kept, list, ready, slots)
}
