// The jobs of a list in columns, as a queue for each task with its oldest unfinished job at the head: what both runs share, their checks
// too, and the searches of the ticking run.
#![tactic(auto)]

ghost use Rattle.std.specs.Prelude.{◌≡◌, ◌≤◌, ◌<◌, min, leb, length, get_or};
ghost use Rattle.model.specs.Slots.{Holds};
ghost use Rattle.model.specs.Choice.{column};
ghost use Rattle.model.specs.Checks.{refusal_of};
ghost use Rattle.model.specs.Ready.{ready_list};
ghost use Rattle.model.specs.Calls.{releases_of, column_after};
ghost use Rattle.refusal.specs.Refusal.{refusal_in};
ghost use Rattle.taskset.specs.TaskSet.{view_of};
ghost use Rattle.frame.specs.FrameView.{frame_of, framed_of};
ghost use Rattle.trace.specs.TraceCalls.{call_inputs};
ghost use Rattle.queues.specs.Framed.{framed_first};
ghost use Rattle.queues.specs.Queues.{start_of, next_of, never, wake_of, top_ready, wake_all, work_of, Timely, Workable};
ghost use Rattle.releases.specs.Over.{over};

use frame::Frame;
use refusal::Refusal;
use releases::Releases;
use taskset::{PICKUP, TaskSet};

// A tick over every start and finish tick of a run.
pub const NEVER: u64 = 18446744073709551615;

// The first tick in which a job may run, given its ready tick.
fn start_of(ready: u64) -> u64
    requires { start_of ready < never }
    ensures { result ≡ start_of ready }
{
    ready + PICKUP
}

// The first job of task i from a place on, and n where there is none.
pub fn next_of(task: &[u32], n: usize, i: u32, from: usize) -> usize
    requires { (from ≤ n) × (n ≤ length task.now) }
    ensures { result ≡ next_of task.now n i from }
{
    for p in from..n {
        if task[p] == i {
            return p;
        }
    }
    n
}

// The tick from which the job at p may run, and NEVER where p is past the list.
pub fn wake_of(ready: &[u64], n: usize, p: usize) -> u64
    requires { Timely n ready.now }
    ensures { result ≡ wake_of ready.now n p }
{
    if p < n {
        return start_of(ready[p]);
    }
    NEVER
}

// Whether the job at p may run in tick t: wake_of(ready, n, p) <= t. Written out, it is compiled to a comparison of ready tick and t, without a sum.
pub fn may_run(ready: &[u64], n: usize, p: usize, t: u64) -> bool
    requires { Timely n ready.now }
    ensures { result ≡ leb (wake_of ready.now n p) t }
{
    if p < n {
        return start_of(ready[p]) <= t;
    }
    NEVER <= t
}

// The highest-priority task whose oldest unfinished job may run in tick t; tasks where there is none.
pub fn top_ready(head: &[usize; 32], ready: &[u64], n: usize, tasks: usize, t: u64) -> usize
    requires { (tasks ≤ 32) × Timely n ready.now }
    ensures { result ≡ top_ready head.now ready.now n tasks t }
{
    for i in 0..tasks {
        if may_run(ready, n, head[i], t) {
            return i;
        }
    }
    tasks
}

// The first tick in which the oldest unfinished job of some task may run; NEVER where every job is finished.
pub fn wake_all(head: &[usize; 32], ready: &[u64], n: usize, tasks: usize) -> u64
    requires { (tasks ≤ 32) × Timely n ready.now }
    ensures { result ≡ wake_all head.now ready.now n tasks }
{
    let mut wake = NEVER;
    for i in 0..tasks {
        wake = wake.min(wake_of(ready, n, head[i]));
    }
    wake
}

// The oldest job of each task; 0 past the tasks.
pub fn first_jobs(task: &[u32], n: usize, tasks: usize) -> [usize; 32]
    requires { (tasks ≤ 32) × (n ≤ length task.now) }
    ensures { Holds (λ i. next_of task.now n i 0) tasks 32 result }
{
    let mut head = [0; 32];
    for i in 0..tasks {
        head[i] = next_of(task, n, i as u32, 0);
    }
    head
}

// The work of the job at p, its cost and the charge, and 0 where p is past the list.
pub fn work_of(cost: &[u32], charge: u32, n: usize, p: usize) -> u32
    requires { Workable n cost.now charge }
    ensures { result ≡ work_of cost.now charge n p }
{
    if p < n {
        return cost[p] + charge;
    }
    0
}

// The work that the oldest job of each task has before the first tick; 0 past the tasks.
pub fn first_work(
    head: &[usize; 32],
    cost: &[u32],
    charge: u32,
    n: usize,
    tasks: usize,
) -> [u32; 32]
    requires { (tasks ≤ 32) × Workable n cost.now charge }
    ensures { Holds (λ i. work_of cost.now charge n (get_or head.now i 0)) tasks 32 result }
{
    let mut left = [0; 32];
    for i in 0..tasks {
        left[i] = work_of(cost, charge, n, head[i]);
    }
    left
}

// The check of a sheet with its frame, where there is one; fine where there is none.
fn check_framed(s: TaskSet, f: Option<Frame>) -> Result<(), Refusal>
    ensures { refusal_in result ≡ framed_first (frame_of f) (view_of s) }
{
    match f {
        None => Ok(()),
        Some(_) => frame::check_sheet(s, f),
    }
}

// The checks of a run to which two columns of so many slots are lent.
pub fn check_two(
    s: TaskSet,
    f: Option<Frame>,
    kept: &[u32],
    list: &Releases,
    first: usize,
    second: usize,
) -> Result<(), Refusal>
    ensures { refusal_in result
        ≡ refusal_of (over (call_inputs (framed_of s f) kept.now) list.now (min first second)) }
{
    check_framed(s, f)?;
    trace::check_two(s, kept, list, first, second)
}

// The checks of a run, with `slots` for the finish ticks; where they pass, the ready ticks are written to the first slots of `ready`.
pub fn check_and_shape(
    s: TaskSet,
    f: Option<Frame>,
    kept: &[u32],
    list: &Releases,
    ready: &mut [u64],
    slots: usize,
) -> Result<(), Refusal>
    ensures refusal { refusal_in result
        ≡ refusal_of (over (call_inputs (framed_of s f) kept.now) list.now
        (min (length ready.old) slots)) }
    ensures ticks { ready.new
        ≡ column_after (refusal_in result)
        (ready_list (framed_of s f) (column kept.now) (over releases_of list.now)) ready.old }
{
    check_framed(s, f)?;
    trace::check_and_shape(s, kept, list, ready, slots)
}
