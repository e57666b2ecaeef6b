// The run that jumps: from one moment to the next at which a job may run for the first time or finishes, never tick by tick.
#![tactic(auto)]

ghost use Rattle.std.specs.Prelude.{◌≡◌, ◌++◌, ◌-◌, ◌≤◌, ◌<◌, leb, length, get_or, drop};
ghost use Rattle.model.specs.Series.{table};
ghost use Rattle.model.specs.Stops.{different};
ghost use Rattle.model.specs.Frame as model_frame;
ghost use Rattle.model.specs.Choice.{column};
ghost use Rattle.model.specs.Slots.{Holds};
ghost use Rattle.model.specs.Checks.{refusal_of};
ghost use Rattle.model.specs.Ready.{ready_list};
ghost use Rattle.model.specs.Run.{finish_of, finish_list};
ghost use Rattle.model.specs.Calls.{releases_of, column_after, run_inputs, jump_call};
ghost use Rattle.frame.specs.FrameView.{framed_of};
ghost use Rattle.frame.specs.WindowColumns.{IsSupply, frame_in};
ghost use Rattle.queues.specs.Queues.{jobs_of, never, first_from, wake_of, Timely, Runnable};
ghost use Rattle.jumps.specs.Jumps.{jump_in, stops_of, comes, coming_of, Queued, Next, Awake, Waking};
ghost use Rattle.releases.specs.Over.{over};

use frame::{Frame, Supply};
use queues::{NEVER, first_jobs, first_work, may_run, next_of, wake_of, work_of};
use refusal::Refusal;
use releases::Releases;
use taskset::TaskSet;

// Whether the job at p is one of task i that may not run in tick t yet.
fn is_coming(task: &[u32], ready: &[u64], n: usize, i: u32, t: u64, p: usize) -> bool
    requires { (p < n) × (n ≤ length task.now) × Timely n ready.now }
    ensures { result ≡ comes task.now ready.now n i t p }
{
    if task[p] != i {
        return false;
    }
    !may_run(ready, n, p, t)
}

// The first job of task i from a place on that may not run in tick t yet, and n where there is none.
fn coming_of(task: &[u32], ready: &[u64], n: usize, i: u32, t: u64, from: usize) -> usize
    requires { (from ≤ n) × (n ≤ length task.now) × Timely n ready.now }
    ensures { result ≡ coming_of task.now ready.now n i t from }
{
    for p in from..n {
        if is_coming(task, ready, n, i, t, p) {
            return p;
        }
    }
    n
}

// The first start tick after t of task i, NEVER where there is none. `coming` has for each task a place before which every job of the task
// may run in tick t, `due` its start tick; those of task i are moved on where t has reached the tick.
fn next_due(
    task: &[u32],
    ready: &[u64],
    n: usize,
    tasks: usize,
    t: u64,
    i: usize,
    coming: &mut [usize],
    due: &mut [u64],
) -> u64
    requires { Queued n tasks task.now ready.now × Awake n tasks task.now ready.now t coming.old due.old × (i < tasks) }
    ensures { Awake n tasks task.now ready.now t coming.new due.new
        × Next n task.now ready.now (λ k. k ≡ i) t result }
{
    let soon = due[i];
    if t < soon {
        return soon;
    }
    let p = coming_of(task, ready, n, i as u32, t, coming[i]);
    let later = wake_of(ready, n, p);
    coming[i] = p;
    due[i] = later;
    later
}

// The next tick after t in which a job may run for the first time, NEVER where there is none. It is `wake` unless t has reached that.
fn next_wake(
    task: &[u32],
    ready: &[u64],
    n: usize,
    tasks: usize,
    t: u64,
    wake: u64,
    coming: &mut [usize],
    due: &mut [u64],
) -> u64
    requires { Queued n tasks task.now ready.now × Waking n tasks task.now ready.now t wake coming.old due.old × (t < never) }
    ensures { Waking n tasks task.now ready.now t result coming.new due.new × (t < result) }
{
    if t < wake {
        return wake;
    }
    let mut least = NEVER;
    for i in 0..tasks {
        let soon = next_due(task, ready, n, tasks, t, i, coming, due);
        least = least.min(soon);
    }
    least
}

// The start tick of the oldest job of each task; 0 past the tasks.
fn first_starts(head: &[usize; 32], ready: &[u64], n: usize, tasks: usize) -> [u64; 32]
    requires { (tasks ≤ 32) × Timely n ready.now }
    ensures { Holds (λ i. wake_of ready.now n (get_or head.now i 0)) tasks 32 result }
{
    let mut since = [0; 32];
    for i in 0..tasks {
        since[i] = wake_of(ready, n, head[i]);
    }
    since
}

// The first task whose start tick is t or before; tasks where there is none.
fn top_started(since: &[u64; 32], tasks: usize, t: u64) -> usize
    requires { tasks ≤ 32 }
    ensures { result ≡ first_from (λ i. leb (get_or since.now i 0) t) tasks 0 }
{
    for i in 0..tasks {
        if since[i] <= t {
            return i;
        }
    }
    tasks
}

// The work that a job with `left` ticks of it at tick t has at tick u, where it runs in every tick of ours between them.
fn left_after(supply: &Supply, left: u32, t: u64, u: u64) -> u32
    requires supplies { IsSupply supply.now }
    requires t_le_u { t ≤ u }
    requires t_bound { model_frame.supply (model_frame.ours_in (frame_in supply.now)) t (u - t) ≤ left }
    ensures { result ≡ left - model_frame.supply (model_frame.ours_in (frame_in supply.now)) t (u - t) }
{
    let before = supply.our_ticks(t);
    let done = supply.our_ticks(u) - before;
    left - done as u32
}

// The finish ticks of the run of n jobs in a frame, if any, in the first n slots of the column lent, and how often the run stopped. At tick t
// `head` has the oldest unfinished job of each task, `since` its start tick, `left` the ticks of work that it has left; the next start tick
// after t is `wake`.
fn fill_finish(
    supply: &Supply,
    task: &[u32],
    cost: &[u32],
    charge: u32,
    ready: &[u64],
    n: usize,
    tasks: usize,
    finish: &mut [u64],
) -> u32
    requires supplies { IsSupply supply.now }
    requires runnable { Runnable (frame_in supply.now) n tasks task.now cost.now charge ready.now finish.old }
    ensures finishes { finish.new
        ≡ table (finish_of (jobs_of (frame_in supply.now) n task.now cost.now charge
        ready.now)) n
        ++ drop n finish.old }
    ensures stops { result
        ≡ different (stops_of (jobs_of (frame_in supply.now) n task.now cost.now charge
        ready.now)) }
{
    let mut head = first_jobs(task, n, tasks);
    let mut since = first_starts(&head, ready, n, tasks);
    let mut left = first_work(&head, cost, charge, n, tasks);
    let mut coming = head;
    let mut due = since;
    let mut wake: u64 = 0;
    let mut t: u64 = 0;
    let mut stops: u32 = 0;
    // The number of turns is not known before, so this is no `for`.
    loop {
        wake = next_wake(task, ready, n, tasks, t, wake, &mut coming, &mut due);
        let i = top_started(&since, tasks, t);
        if i == tasks {
            if wake == NEVER {
                return stops;
            }
            t = wake;
            stops += 1;
            continue;
        }
        let end = t + supply.reach(t, u64::from(left[i]));
        if wake < end {
            left[i] = left_after(supply, left[i], t, wake);
            t = wake;
            stops += 1;
            continue;
        }
        let p = head[i];
        finish[p] = end;
        let next = next_of(task, n, i as u32, p + 1);
        head[i] = next;
        since[i] = wake_of(ready, n, next);
        left[i] = work_of(cost, charge, n, next);
        t = end;
        stops += 1;
    }
}

// The run of a list of releases with kept jitters, in a frame, if any, from moment to moment: ready and finish ticks are written to the
// first slots of the two columns, and the answer is how often it stopped. A refusal has the documents' number and place, and leaves both
// columns as they were.
pub fn run(
    s: TaskSet,
    f: Option<Frame>,
    kept: &[u32],
    list: &Releases,
    ready: &mut [u64],
    finish: &mut [u64],
) -> Result<u32, Refusal>
    ensures answer { jump_in result
        ≡ over (jump_call (framed_of s f) kept.now) list.now ready.old finish.old }
    ensures ticks { ready.new
        ≡ column_after (refusal_of
        (over (run_inputs (framed_of s f) kept.now) list.now ready.old finish.old))
        (ready_list (framed_of s f) (column kept.now) (over releases_of list.now)) ready.old }
    ensures finishes { finish.new
        ≡ column_after (refusal_of
        (over (run_inputs (framed_of s f) kept.now) list.now ready.old finish.old))
        (finish_list (framed_of s f) (column kept.now) (over releases_of list.now)) finish.old }
{
    queues::check_and_shape(s, f, kept, list, ready, finish.len())?;
    let tasks = s.count;
    let charge = s.charge as u32;
    let supply = frame::supply_of(f);
    let stops = fill_finish(
        &supply, list.task, list.cost, charge, ready, list.count, tasks, finish,
    );
    Ok(stops)
}
