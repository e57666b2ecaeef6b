// Runs the stored cases of the small traces, and prints a line for each: the answer of the call for a trace, every slot of its three lent columns, and after a
// mark the answer of the call for the number of traces.
#![tactic(auto)]

ghost use Rattle.std.specs.Prelude.{◌≡◌};
ghost use Rattle.taskset.specs.TaskSet.{view_of};
ghost use Rattle.enumeration.specs.SmallCalls.{small_call, small_column};

use refusal::Refusal;
use taskset::TaskSet;

// Prints what the call for a trace answers.
fn print_trace(answer: Result<Option<usize>, Refusal>) {
    match answer {
        Ok(Some(length)) => cases::print_named(b"trace", length as u64),
        Ok(None) => cases::print_words(b"none"),
        Err(r) => cases::print_refusal(r),
    }
}

// Prints what the call for the number of traces answers.
fn print_count(answer: Result<u64, Refusal>) {
    match answer {
        Ok(n) => cases::print_named(b"count", n),
        Err(r) => cases::print_refusal(r),
    }
}

// Calls for a trace, and prints the answer and the columns lent.
fn trace_call(
    set: TaskSet,
    releases: usize,
    ticks: usize,
    position: u64,
    task: &mut [u32],
    tick: &mut [u64],
    cost: &mut [u32],
)
    ensures task_after { task.new
        ≡ small_column (λ q. q.task) (small_call (view_of set) releases ticks position task.old tick.old cost.old)
        task.old }
    ensures tick_after { tick.new
        ≡ small_column (λ q. q.tick) (small_call (view_of set) releases ticks position task.old tick.old cost.old)
        tick.old }
    ensures cost_after { cost.new
        ≡ small_column (λ q. q.cost) (small_call (view_of set) releases ticks position task.old tick.old cost.old)
        cost.old }
{
    print_trace(smalltraces::small_trace(set, releases, ticks, position, task, tick, cost));
    cases::print_column(task);
    cases::print_ticks(tick);
    cases::print_column(cost);
}

// A number of 64 bits from its two halves.
fn joined(low: u32, high: u32) -> u64 {
    u64::from(low) + 4294967296 * u64::from(high)
}

// A case: count of releases, tick bound, and both halves of the position; then the columns of tasks, ticks and costs.
fn small_case(head: &[u32; 168]) {
    let set = cases::task_set(head);
    let releases = cases::index(head[0]);
    let ticks = cases::index(head[1]);
    let position = joined(head[2], head[3]);
    let mut task = [0u32; 64];
    let tasks = cases::read_column(&mut task);
    let mut tick = [0u64; 64];
    let slots = cases::read_ticks(&mut tick);
    let mut cost = [0u32; 64];
    let costs = cases::read_column(&mut cost);
    trace_call(
        set,
        releases,
        ticks,
        position,
        &mut task[..tasks],
        &mut tick[..slots],
        &mut cost[..costs],
    );
    cases::print_half();
    print_count(smalltraces::small_trace_count(set, releases, ticks));
}

// Case after case up to the end of the input.
fn main() {
    cases::run_cases(small_case);
}
