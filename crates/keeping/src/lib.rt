// The least kept jitter at which a task fits, given those of the tasks above: one walk over q finds it.
#![tactic(auto)]

ghost use Rattle.std.specs.Prelude.{◌≡◌, ◌≤◌};
ghost use Rattle.frame.specs.WindowColumns.{IsSupply, frame_in, supply_lent};
ghost use Rattle.demand.specs.Columns.{HasFactors, columns_lent, factors_lent};
ghost use Rattle.keeping.specs.Keeping.{Searched, Walkable, WindowOf, LeastOf, Product, Stepped, step_of};

use demand::{FactorSlices, TaskSlices, above_load, once_each, start_at, tally_of};
use frame::SupplySlices;
use taskset::PICKUP;

// W(q), with how many t count for it.
#[derive(Clone, Copy)]
pub struct Window {
    pub ticks: u32,
    pub tries: u64,
}

// What the walk over q says at one q: the least kept jitter, which stops here, with its largest R; that no kept jitter fits;
// or the largest W(q) + pickup + J − qP so far. Three cases, so neither Option nor Result.
#[derive(Clone, Copy)]
pub enum Step {
    Stops { keep: u32, worst: u32 },
    Fails,
    Next(u32),
}

// The least kept jitter at which a task fits, with its largest R, the last q that was taken and the evaluations.
#[derive(Clone, Copy)]
pub struct Least {
    pub keep: u32,
    pub worst: u32,
    pub last: u32,
    pub evaluations: u64,
}

// A number of jobs times P or E.
fn product(n: u32, x: u32) -> u64
    requires { (n ≤ 10000001) × (x ≤ 1000000) }
    ensures { Product n x result }
{
    u64::from(n) * u64::from(x)
}

// W(q) of task n, start by start of the frame: from the ticks that q + 1 loads of its own and `once`, one load of each task above, take, on with those of the demand in
// the t just tried; the largest of the starts. None where it is over the horizon H, or there is none. Without a frame there is one start, and every t of the search counts.
fn window_of(
    columns: &TaskSlices,
    factors: &FactorSlices,
    keeps: &[u32],
    supply: &SupplySlices,
    n: usize,
    once: u64,
    q: u32,
) -> Option<Window>
    requires searched { Searched columns.now.loads.now columns.now.periods.now keeps.now n once q }
    requires factored { HasFactors (columns_lent columns.now) (factors_lent factors.now) n }
    requires supplies { IsSupply (supply_lent supply.now) }
    ensures { WindowOf (frame_in (supply_lent supply.now)) columns.now.loads.now columns.now.periods.now keeps.now n q result }
{
    let own = product(q + 1, columns.loads[n]);
    let need = own + once;
    let starts = supply.starts();
    let tally = tally_of(supply.framed);
    let begin = start_at(supply, 0, need);
    let mut at = begin.at;
    let mut before = begin.before;
    let mut t = begin.t;
    let mut w: u64 = 0;
    let mut k = 0;
    let mut tries: u64 = 0;
    // The number of turns is not known before, so this is no `for`.
    loop {
        tries += tally;
        if 10000000 < t {
            return None;
        }
        let d = own + above_load(columns, factors, keeps, n, t as u32);
        let x = supply.reach_from(at, before, d);
        if t < x {
            t = x;
            continue;
        }
        w = w.max(t);
        k += 1;
        if starts <= k {
            return Some(Window {
                ticks: w as u32,
                tries,
            });
        }
        let next = start_at(supply, k, need);
        at = next.at;
        before = next.before;
        t = next.t;
    }
}

// The walk over q at one q, w being W(q) and `high` the largest W(q') + pickup + J − q'P of the q' before.
fn step_at(period: u32, jitter: u32, deadline: u32, high: u32, q: u32, w: u32) -> Step
    requires { Stepped period jitter deadline high q w }
    ensures { result ≡ step_of period jitter deadline high q w }
{
    let t = u64::from(w);
    let picked = t + PICKUP;
    let d = u64::from(deadline);
    let base = product(q, period);
    if d + base.saturating_sub(u64::from(jitter)) < picked {
        return Step::Fails;
    }
    let next = u64::from(high).max((picked + u64::from(jitter)).saturating_sub(base));
    let keep = next.saturating_sub(d) as u32;
    if t <= shaper::gap(period, keep, q + 1) {
        return Step::Stops {
            keep,
            worst: (next - u64::from(keep)) as u32,
        };
    }
    Step::Next(next as u32)
}

// The least kept jitter at which task i fits, given the kept jitters of the tasks above; None where there is none. W(q) does not depend on the task's own K, so one walk
// over q finds it. It takes the q that the verdict at that kept jitter takes.
pub fn least_keep(
    columns: &TaskSlices,
    factors: &FactorSlices,
    keeps: &[u32],
    supply: &SupplySlices,
    i: usize,
    jitter: u32,
    deadline: u32,
) -> Option<Least>
    requires walkable { Walkable columns.now.loads.now columns.now.periods.now keeps.now i jitter deadline }
    requires factored { HasFactors (columns_lent columns.now) (factors_lent factors.now) i }
    requires supplies { IsSupply (supply_lent supply.now) }
    ensures { LeastOf (frame_in (supply_lent supply.now)) columns.now.loads.now columns.now.periods.now keeps.now i jitter deadline result }
{
    let period = columns.periods[i];
    let once = once_each(columns.loads, i);
    let mut q: u32 = 0;
    let mut high: u32 = 0;
    let mut evaluations: u64 = 0;
    // The number of turns is not known before, so this is no `for`.
    loop {
        let window = window_of(columns, factors, keeps, supply, i, once, q)?;
        evaluations += window.tries;
        match step_at(period, jitter, deadline, high, q, window.ticks) {
            Step::Fails => {
                return None;
            }
            Step::Stops { keep, worst } => {
                return Some(Least {
                    keep,
                    worst,
                    last: q,
                    evaluations,
                });
            }
            Step::Next(next) => {
                high = next;
                q += 1;
            }
        }
    }
}
