// The run, tick by tick: in each tick of ours, of the jobs that were ready before it and are unfinished, the highest-priority task's oldest
// job runs.
#![tactic(auto)]

ghost use Rattle.std.specs.Prelude.{◌≡◌, ◌++◌, drop};
ghost use Rattle.model.specs.Series.{table};
ghost use Rattle.model.specs.Choice.{column};
ghost use Rattle.model.specs.Checks.{refusal_of};
ghost use Rattle.model.specs.Ready.{ready_list};
ghost use Rattle.model.specs.Run.{finish_of, finish_list};
ghost use Rattle.model.specs.Calls.{releases_of, column_after, run_inputs};
ghost use Rattle.refusal.specs.Refusal.{refusal_in};
ghost use Rattle.frame.specs.FrameView.{framed_of};
ghost use Rattle.frame.specs.WindowColumns.{HasColumns, frame_in};
ghost use Rattle.queues.specs.Queues.{jobs_of, Runnable};
ghost use Rattle.releases.specs.Over.{over};

use frame::{Frame, Supply};
use queues::{NEVER, first_jobs, first_work, next_of, top_ready, wake_all, work_of};
use refusal::Refusal;
use releases::Releases;
use taskset::TaskSet;

// The finish ticks of the run of n jobs in a frame, if any, in the first n slots of the column lent. `head` has the oldest unfinished job of
// each task, `left` the ticks of work that it has left; before tick `wake` no unfinished job may run.
fn fill_finish(
    supply: &Supply,
    task: &[u32],
    cost: &[u32],
    charge: u32,
    ready: &[u64],
    n: usize,
    tasks: usize,
    finish: &mut [u64],
)
    requires frame_columns { HasColumns supply.now }
    requires runnable { Runnable (frame_in supply.now) n tasks task.now cost.now charge ready.now finish.old }
    ensures { finish.new
        ≡ table (finish_of (jobs_of (frame_in supply.now) n task.now cost.now charge
        ready.now)) n
        ++ drop n finish.old }
{
    let mut head = first_jobs(task, n, tasks);
    let mut left = first_work(&head, cost, charge, n, tasks);
    let mut wake: u64 = 0;
    let mut t: u64 = 0;
    // The number of turns is not known before, so this is no `for`.
    loop {
        if t < wake {
            t += 1;
            continue;
        }
        let i = top_ready(&head, ready, n, tasks, t);
        if i == tasks {
            wake = wake_all(&head, ready, n, tasks);
            if wake == NEVER {
                return;
            }
            t += 1;
            continue;
        }
        if supply.framed {
            if !supply.is_ours(t) {
                t += 1;
                continue;
            }
        }
        let rest = left[i] - 1;
        t += 1;
        if rest != 0 {
            left[i] = rest;
            continue;
        }
        let p = head[i];
        finish[p] = t;
        let next = next_of(task, n, i as u32, p + 1);
        head[i] = next;
        left[i] = work_of(cost, charge, n, next);
    }
}

// The run of a list of releases with kept jitters, in a frame, if any: ready and finish ticks are written to the first slots of the two
// columns. A refusal has the documents' number and place, and leaves both columns as they were.
pub fn run(
    s: TaskSet,
    f: Option<Frame>,
    kept: &[u32],
    list: &Releases,
    ready: &mut [u64],
    finish: &mut [u64],
) -> Result<(), Refusal>
    ensures refusal { refusal_in result
        ≡ refusal_of (over (run_inputs (framed_of s f) kept.now) list.now ready.old
        finish.old) }
    ensures ticks { ready.new
        ≡ column_after (refusal_of
        (over (run_inputs (framed_of s f) kept.now) list.now ready.old finish.old))
        (ready_list (framed_of s f) (column kept.now) (over releases_of list.now)) ready.old }
    ensures finishes { finish.new
        ≡ column_after (refusal_of
        (over (run_inputs (framed_of s f) kept.now) list.now ready.old finish.old))
        (finish_list (framed_of s f) (column kept.now) (over releases_of list.now)) finish.old }
{
    queues::check_and_shape(s, f, kept, list, ready, finish.len())?;
    let tasks = s.count;
    let charge = s.charge as u32;
    let supply = frame::supply_of(f);
    fill_finish(
        &supply, list.task, list.cost, charge, ready, list.count, tasks, finish,
    );
    Ok(())
}
