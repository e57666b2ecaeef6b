// Runs the stored cases of the trace check and of the ready ticks, and prints a line for each: the answer, and every slot of the lent column of
// ready ticks.
#![tactic(auto)]

ghost use Rattle.std.specs.Prelude.{◌≡◌};
ghost use Rattle.model.specs.Choice.{column};
ghost use Rattle.model.specs.Checks.{refusal_of};
ghost use Rattle.model.specs.Ready.{ready_list};
ghost use Rattle.model.specs.Calls.{releases_of, column_after, ready_inputs};
ghost use Rattle.releases.specs.Over.{over};
ghost use Rattle.taskset.specs.TaskSet.{view_of};

use refusal::Refusal;
use releases::Releases;
use taskset::TaskSet;

// Prints what the trace check answers.
fn print_trace(answer: Result<Option<usize>, Refusal>) {
    match answer {
        Ok(None) => cases::print_words(b"legal"),
        Ok(Some(release)) => cases::print_named(b"too close", release as u64),
        Err(r) => cases::print_refusal(r),
    }
}

// A case of the trace check: count of releases; then the columns of tasks, ticks and costs.
fn trace_case(head: &[u32; 168]) {
    let set = cases::task_set(head);
    let count = cases::index(head[1]);
    let task = cases::lent_column::<1056>();
    let tick = cases::lent_ticks::<1056>();
    let cost = cases::lent_column::<1056>();
    let list = Releases {
        count,
        task: task.as_slice(),
        tick: tick.as_slice(),
        cost: cost.as_slice(),
    };
    print_trace(trace::check_trace(set, &list));
}

// Calls the ready ticks, and prints the answer and the column lent.
fn ready_call(set: TaskSet, kept: &[u32], list: &Releases, ready: &mut [u64])
    ensures { ready.new
        ≡ column_after
        (refusal_of (over (ready_inputs (view_of set) kept.now) list.now ready.old))
        (ready_list (view_of set) (column kept.now) (over releases_of list.now))
        ready.old }
{
    cases::print_checked(trace::ready_ticks(set, kept, list, ready));
    cases::print_ticks(ready);
}

// A case of the ready ticks: count of releases; then kept jitters, tasks, ticks, costs and the column of ready ticks.
fn ready_case(head: &[u32; 168]) {
    let set = cases::task_set(head);
    let count = cases::index(head[1]);
    let kept = cases::lent_column::<64>();
    let task = cases::lent_column::<1056>();
    let tick = cases::lent_ticks::<1056>();
    let cost = cases::lent_column::<1056>();
    let list = Releases {
        count,
        task: task.as_slice(),
        tick: tick.as_slice(),
        cost: cost.as_slice(),
    };
    let mut ready = cases::lent_ticks::<1056>();
    let readies = ready.lent;
    ready_call(set, kept.as_slice(), &list, &mut ready.slots[..readies]);
}

// One case: 0 is the trace check, 1 the ready ticks.
fn one(head: &[u32; 168]) {
    if head[0] == 0 {
        trace_case(head);
    } else {
        ready_case(head);
    }
}

fn main() {
    cases::run_cases(one);
}
