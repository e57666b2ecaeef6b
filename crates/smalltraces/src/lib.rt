// The calls on the small traces of a sheet (document 02, R-12): the trace at a position, and how many there are.
#![tactic(auto)]

ghost use Rattle.std.specs.Prelude.{◌≡◌, ◌++◌, ◌≤◌, take, drop};
ghost use Rattle.releases.proofs.ReleaseLaws.{Columns};
ghost use Rattle.refusal.specs.Refusal.{refusal_in};
ghost use Rattle.taskset.specs.TaskSet.{view_of};
ghost use Rattle.enumeration.specs.SmallCalls.{small_fault, small_call, count_call};
ghost use Rattle.smalltraces.specs.SmallAnswers.{timing_of, grid_for, found_call, Finds, SmallEnds, count_in};

use generator::{Grid, Timing};
use refusal::{Reason, Refusal};
use std::ops::ControlFlow;
use taskset::{Task, TaskSet};

// The checks of both calls: the sheet (5, 4, then 6 and 17 by task), more than 3 tasks (4), a count over 6 (10), a tick bound over 12 (8).
pub fn check_small(s: TaskSet, releases: usize, ticks: usize) -> Result<(), Refusal>
    ensures { refusal_in result ≡ small_fault (view_of s) releases ticks }
{
    taskset::check(s)?;
    let count = s.count;
    if 3 < count {
        return Err(Refusal {
            reason: Reason::TooManyTasks,
            place: count,
        });
    }
    if 6 < releases {
        return Err(Refusal {
            reason: Reason::TooManyReleases,
            place: releases,
        });
    }
    if 12 < ticks {
        return Err(Refusal {
            reason: Reason::ReleaseTick,
            place: ticks,
        });
    }
    Ok(())
}

// P, J and E of a task.
fn timing_of(t: Task) -> Timing
    ensures { result ≡ timing_of t }
{
    Timing {
        period: t.period,
        jitter: t.jitter,
        cost: t.cost,
    }
}

// The pairs (tick, task) of a sheet with ticks below a number.
fn grid_of(s: TaskSet, ticks: usize) -> Grid
    requires { (s.count ≤ 3) × (ticks ≤ 12) }
    ensures { result ≡ grid_for s ticks }
{
    Grid {
        timings: [
            timing_of(s.tasks[0]),
            timing_of(s.tasks[1]),
            timing_of(s.tasks[2]),
        ],
        tasks: s.count,
        pairs: ticks * s.count,
    }
}

// The trace at a position, put into rows of 6 places: how many releases it has; none past the last trace.
pub fn find(
    s: TaskSet,
    releases: usize,
    ticks: usize,
    position: u64,
    task: &mut [u32],
    tick: &mut [u64],
    cost: &mut [u32],
) -> Result<Option<usize>, Refusal>
    requires { Columns 6 task.old tick.old cost.old }
    ensures { Finds (found_call (view_of s) releases ticks position) task.new tick.new cost.new result }
{
    check_small(s, releases, ticks)?;
    let g = grid_of(s, ticks);
    Ok(generator::search(g, releases, position, task, tick, cost).break_value())
}

// Writes the first n places of the rows to the columns.
pub fn put_rows(
    n: usize,
    tasks: &[u32],
    ticks: &[u64],
    costs: &[u32],
    task: &mut [u32],
    tick: &mut [u64],
    cost: &mut [u32],
)
    requires { Columns n tasks.now ticks.now costs.now × Columns n task.old tick.old cost.old }
    ensures task_column { task.new ≡ take n tasks.now ++ drop n task.old }
    ensures tick_column { tick.new ≡ take n ticks.now ++ drop n tick.old }
    ensures cost_column { cost.new ≡ take n costs.now ++ drop n cost.old }
{
    task[..n].copy_from_slice(&tasks[..n]);
    tick[..n].copy_from_slice(&ticks[..n]);
    cost[..n].copy_from_slice(&costs[..n]);
}

// The small trace at a position counted from 0, written to the first slots of the columns; or that there is none; or a refusal.
pub fn small_trace(
    s: TaskSet,
    releases: usize,
    ticks: usize,
    position: u64,
    task: &mut [u32],
    tick: &mut [u64],
    cost: &mut [u32],
) -> Result<Option<usize>, Refusal>
    ensures { SmallEnds (small_call (view_of s) releases ticks position task.old tick.old cost.old)
        task.old tick.old cost.old task.new tick.new cost.new result }
{
    let mut task_row = [0u32; 6];
    let mut tick_row = [0u64; 6];
    let mut cost_row = [0u32; 6];
    let found = find(
        s,
        releases,
        ticks,
        position,
        &mut task_row,
        &mut tick_row,
        &mut cost_row,
    )?;
    let Some(length) = found else {
        return Ok(None);
    };
    releases::check_columns(length, task, tick, cost)?;
    put_rows(length, &task_row, &tick_row, &cost_row, task, tick, cost);
    Ok(Some(length))
}

// How many small traces there are. The search for a position that is past them all says what is left of it.
pub fn small_trace_count(s: TaskSet, releases: usize, ticks: usize) -> Result<u64, Refusal>
    ensures { count_in result ≡ count_call (view_of s) releases ticks }
{
    check_small(s, releases, ticks)?;
    let mut task = [0u32; 6];
    let mut tick = [0u64; 6];
    let mut cost = [0u32; 6];
    let g = grid_of(s, ticks);
    match generator::search(g, releases, u64::MAX, &mut task, &mut tick, &mut cost) {
        ControlFlow::Break(_) => Ok(u64::MAX),
        ControlFlow::Continue(left) => Ok(u64::MAX - left),
    }
}
