// Response bound and verdict of one task.
#![tactic(auto)]

ghost use Rattle.std.specs.Prelude.{◌≡◌, ◌≤◌};
ghost use Rattle.model.specs.Choice.{column};
ghost use Rattle.model.specs.Bound as model_bound;
ghost use Rattle.model.specs.Evaluations as model_evaluations;
ghost use Rattle.model.specs.Calls.{verdict_call};
ghost use Rattle.frame.specs.FrameView.{framed_of};
ghost use Rattle.frame.specs.WindowColumns.{IsSupply, supply_lent};
ghost use Rattle.demand.specs.Columns.{HasFactors, columns_lent, factors_lent};
ghost use Rattle.verdict.specs.VerdictAnswer.{judged_in, verdict_in};
ghost use Rattle.verdict.specs.Walking.{Walkable, Met, IsResponse, tasks_in, better_of};

use demand::{FactorSlices, TaskSlices};
use frame::{Frame, SupplySlices};
use refusal::Refusal;
use taskset::{PICKUP, TaskSet};

// The verdict of one task: horizon with q; late with q and R(q); fits with the largest R met and the first q that had it; each with the number of its evaluations.
#[derive(Clone, Copy, Debug, PartialEq, Eq)]
pub enum Verdict {
    Horizon {
        q: u32,
        evaluations: u64,
    },
    Late {
        q: u32,
        bound: u32,
        evaluations: u64,
    },
    Fits {
        worst: u32,
        q: u32,
        evaluations: u64,
    },
}

// The largest R met so far and the first q that had it.
#[derive(Clone, Copy)]
struct Best {
    worst: u32,
    first: u32,
}

// The best so far, with R(q) met next.
fn better(b: Best, r: u32, q: u32) -> Best
    ensures { result ≡ better_of b r q }
{
    if b.worst < r {
        Best { worst: r, first: q }
    } else {
        b
    }
}

// x = J − qP, exact on both sides of zero.
fn offset(period: u32, jitter: u32, q: u32) -> i64
    requires period_bound { period ≤ 1000000 }
    requires q_bound { q ≤ 10000000 }
    ensures { result ≡ model_bound.offset period jitter q }
{
    jitter as i64 - (q as i64) * (period as i64)
}

// R(q) = W(q) + pickup + max(x − K, min(0, x)), w being W(q).
fn response(period: u32, jitter: u32, keep: u32, q: u32, w: u32) -> u32
    requires { Met period jitter keep q w }
    ensures { IsResponse period jitter keep q w result }
{
    let x = offset(period, jitter, q);
    let shift = x.min(0).max(x - keep as i64);
    let picked = u64::from(w) + PICKUP;
    (picked as i64 + shift) as u32
}

// The walk over q = 0, 1, .. of a task whose loads, periods and kept jitters, and those of the tasks above it, stand in columns, with the factors of the periods above
// and the windows of the frame, if there is one. The search for W(q) goes from start to start of the frame; without a frame there is one start, and every t of the
// search is counted, a last one over the horizon too.
fn walk(
    columns: &TaskSlices,
    factors: &FactorSlices,
    keeps: &[u32],
    supply: &SupplySlices,
    task: usize,
    jitter: u32,
    deadline: u32,
) -> Verdict
    requires walkable { Walkable columns.now.loads.now columns.now.periods.now keeps.now task jitter }
    requires factored { HasFactors (columns_lent columns.now) (factors_lent factors.now) task }
    requires supplies { IsSupply (supply_lent supply.now) }
    ensures { judged_in result
        ≡ model_evaluations.judged (tasks_in (supply_lent supply.now) (columns_lent columns.now) jitter deadline) (column keeps.now) task }
{
    let cost = columns.loads[task];
    let period = columns.periods[task];
    let keep = keeps[task];
    let once = demand::once_each(columns.loads, task);
    let starts = supply.starts();
    let tally = demand::tally_of(supply.framed);
    let mut best = Best { worst: 0, first: 0 };
    let mut q: u32 = 0;
    let mut evaluations: u64 = 0;
    // The number of turns is not known before, so this is no `for`.
    'walk: loop {
        let own = u64::from(q + 1) * u64::from(cost);
        let need = own + once;
        let start = demand::start_at(supply, 0, need);
        let mut at = start.at;
        let mut before = start.before;
        let mut t = start.t;
        let mut w: u64 = 0;
        let mut n = 0;
        'find: loop {
            evaluations += tally;
            if 10000000 < t {
                break 'walk Verdict::Horizon { q, evaluations };
            }
            let d = own + demand::above_load(columns, factors, keeps, task, t as u32);
            let x = supply.reach_from(at, before, d);
            if t < x {
                t = x;
                continue;
            }
            w = w.max(t);
            n += 1;
            if starts <= n {
                break 'find;
            }
            let next = demand::start_at(supply, n, need);
            at = next.at;
            before = next.before;
            t = next.t;
        }
        let r = response(period, jitter, keep, q, w as u32);
        if deadline < r {
            break 'walk Verdict::Late {
                q,
                bound: r,
                evaluations,
            };
        }
        best = better(best, r, q);
        if w <= shaper::gap(period, keep, q + 1) {
            break 'walk Verdict::Fits {
                worst: best.worst,
                q: best.first,
                evaluations,
            };
        }
        q += 1;
    }
}

// The verdict of one task, with kept jitters, on a sheet with a frame or without, and the number of its evaluations.
pub fn verdict_of(
    s: TaskSet,
    f: Option<Frame>,
    task: usize,
    kept: &[u32],
) -> Result<Verdict, Refusal>
    ensures { verdict_in result ≡ verdict_call (framed_of s f) task kept.now }
{
    demand::check_framed(s, f, task, kept)?;
    let columns = demand::columns_of(s);
    let factors = demand::factors_of(&columns.periods, task);
    let supply = frame::supply_of(f);
    let own = s.tasks[task];
    let lent_columns = columns.slices();
    let lent_factors = factors.slices();
    let lent_supply = supply.slices();
    Ok(walk(
        &lent_columns,
        &lent_factors,
        kept,
        &lent_supply,
        task,
        own.jitter,
        own.deadline,
    ))
}
