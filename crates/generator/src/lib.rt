// Every small trace of a sheet (document 02, R-12): a recursive generator that extends each trace one release deeper, its recursion and the search by count.
#![tactic(auto)]

ghost use Rattle.std.specs.Prelude.{◌≡◌, List, [], reverse, ℕ, ◌+◌, ◌<◌};
ghost use Rattle.model.specs.Gap as model_gap;
ghost use Rattle.model.specs.Ready as model_ready;
ghost use Rattle.model.specs.Calls.{releases_of};
ghost use Rattle.enumeration.specs.SmallTraces.{joined, extended};
ghost use Rattle.generator.specs.Generator.{raised, Near, Looked, Seekable, left_after, left_in, Seeks, Reaches, branch, grid_tasks};

use std::ops::ControlFlow;

// P, J and E of a task.
#[derive(Clone, Copy, Debug, PartialEq, Eq)]
pub struct Timing {
    pub period: u32,
    pub jitter: u32,
    pub cost: u32,
}

// The pairs (tick, task) of a sheet with at most 3 tasks: pair x is tick x / tasks and task x % tasks.
#[derive(Clone, Copy, Debug, PartialEq, Eq)]
pub struct Grid {
    pub timings: [Timing; 3],
    pub tasks: usize,
    pub pairs: usize,
}

// The least tick at which a release may follow those looked at so far, and how many places before it the next one of its task stands.
#[derive(Clone, Copy, Debug, PartialEq, Eq)]
pub struct Floor {
    pub tick: u64,
    pub places: u32,
}

// The floor after one more release before those looked at, which is of the same task or not.
fn raise(f: Floor, t: Timing, same: bool, tick: u64) -> Floor
    requires { Near f.places tick }
    ensures { result ≡ raised f t.period t.jitter same tick }
{
    if same {
        let after = tick + shaper::gap(t.period, t.jitter, f.places);
        return Floor {
            tick: f.tick.max(after),
            places: f.places + 1,
        };
    }
    f
}

// The least tick at which a release of task i may follow the first `at` releases of the rows.
fn floor_of(t: Timing, i: u32, at: usize, task: &[u32], tick: &[u64]) -> u64
    requires { Looked at task.now tick.now }
    ensures { (cost : List ℕ) → result ≡ model_ready.after t.period t.jitter (reverse (model_gap.own i (releases_of at task.now tick.now cost))) 1 }
{
    let mut f = Floor { tick: 0, places: 1 };
    for p in (0..at).rev() {
        f = raise(f, t, task[p] == i, tick[p]);
    }
    f.tick
}

// A trace with no release more to be placed: it is the one at the position, a break, or the position counts on after it.
fn ended(position: u64) -> ControlFlow<(), u64>
    ensures { left_in result ≡ left_after 1 position }
{
    if position == 0 {
        return ControlFlow::Break(());
    }
    ControlFlow::Continue(position - 1)
}

// Extends the first `at` releases of the rows by pair x, where that may follow, and goes on with n more. It breaks where the trace at the position was found, and
// else goes on with what is left of the position after the traces that it went through.
#[cycle(place_seek)]
fn place(
    g: Grid,
    n: usize,
    x: usize,
    position: u64,
    at: usize,
    task: &mut [u32],
    tick: &mut [u64],
    cost: &mut [u32],
) -> ControlFlow<(), u64>
    requires { Seekable g (at + 1 + n) at task.old tick.old cost.old × (x < g.pairs) }
    ensures { Seeks (branch (grid_tasks g) g.pairs n (releases_of at task.old tick.old cost.old) x) (at + 1 + n) position at
        task.old tick.old cost.old task.new tick.new cost.new result }
{
    let i = x % g.tasks;
    let now = (x / g.tasks) as u64;
    let t = g.timings[i];
    if now < floor_of(t, i as u32, at, task, tick) {
        return ControlFlow::Continue(position);
    }
    task[at] = i as u32;
    tick[at] = now;
    cost[at] = t.cost;
    if n == 0 {
        return ended(position);
    }
    seek(g, n, x, position, at + 1, task, tick, cost)
}

// Looks for the trace at a position among those that extend the first `at` releases of the rows by n more, none before pair x. Where it is found, a break, the
// rows hold it.
#[cycle(place_seek)]
fn seek(
    g: Grid,
    n: usize,
    x: usize,
    position: u64,
    at: usize,
    task: &mut [u32],
    tick: &mut [u64],
    cost: &mut [u32],
) -> ControlFlow<(), u64>
    requires { Seekable g (at + n) at task.old tick.old cost.old }
    ensures { Seeks (extended (grid_tasks g) g.pairs n x (releases_of at task.old tick.old cost.old)) (at + n) position at
        task.old tick.old cost.old task.new tick.new cost.new result }
{
    if n == 0 {
        return ended(position);
    }
    let mut left = position;
    for y in x..g.pairs {
        left = place(g, n - 1, y, left, at, task, tick, cost)?;
    }
    ControlFlow::Continue(left)
}

// Looks for the trace at a position among those of up to `releases` releases, fewer releases first. Where it is found the rows hold it: a break with the number of
// its releases. Past the last it goes on with what is left of the position.
pub fn search(
    g: Grid,
    releases: usize,
    position: u64,
    task: &mut [u32],
    tick: &mut [u64],
    cost: &mut [u32],
) -> ControlFlow<usize, u64>
    requires { Seekable g releases 0 task.old tick.old cost.old }
    ensures { Reaches (joined (λ n. extended (grid_tasks g) g.pairs n 0 []) 0 (releases + 1)) releases position task.new tick.new cost.new result }
{
    let mut left = position;
    for n in 0..releases + 1 {
        left = match seek(g, n, 0, left, 0, task, tick, cost) {
            ControlFlow::Break(()) => return ControlFlow::Break(n),
            ControlFlow::Continue(rest) => rest,
        };
    }
    ControlFlow::Continue(left)
}
