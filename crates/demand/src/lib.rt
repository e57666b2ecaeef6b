// Arrival count and demand.
#![tactic(auto)]

ghost use Rattle.std.specs.Prelude.{◌≡◌, ◌≤◌, ◌<◌};
ghost use Rattle.model.specs.Tasks.{Valid};
ghost use Rattle.model.specs.Arrival as model_arrival;
ghost use Rattle.model.specs.Checks.{refusal_of};
ghost use Rattle.model.specs.Calls.{task_inputs, arrival_call};
ghost use Rattle.refusal.specs.Refusal.{refusal_in};
ghost use Rattle.taskset.specs.TaskSet.{view_of};
ghost use Rattle.model.specs.Limits.{max_tick};
ghost use Rattle.frame.specs.FrameView.{framed_of};
ghost use Rattle.frame.specs.Starts.{starts_of};
ghost use Rattle.frame.specs.WindowColumns.{IsSupply, frame_in, supply_lent};
ghost use Rattle.quotient.specs.Factor.{IsFactor};
ghost use Rattle.demand.specs.Seeking.{tally_of, StartedIn};
ghost use Rattle.demand.specs.Columns.{Small, Tried, Loads, Periods, HasTasks, HasFactors, columns_lent, factors_lent, IsTerm, IsLoad, IsOnce, Copied, Prepared};
ghost use Rattle.demand.specs.ArrivalAnswer.{arrival_in};

use frame::{Frame, SupplySlices, check_sheet};
use quotient::{ceil_div, factor_of};
use refusal::{Reason, Refusal};
use taskset::TaskSet;

// Loads and periods of a task set, one slot for each task.
#[derive(Clone, Copy)]
pub struct TaskColumns {
    pub loads: [u32; 32],
    pub periods: [u32; 32],
}

// Factors of periods in two parts, one slot for each period: what a division by the period needs.
#[derive(Clone, Copy)]
pub struct FactorColumns {
    pub highs: [u32; 32],
    pub lows: [u32; 32],
}

// Loads and periods in columns of any length, which are lent.
#[derive(Clone, Copy)]
pub struct TaskSlices<'a> {
    pub loads: &'a [u32],
    pub periods: &'a [u32],
}

// The same of the factors of periods.
#[derive(Clone, Copy)]
pub struct FactorSlices<'a> {
    pub highs: &'a [u32],
    pub lows: &'a [u32],
}

impl TaskColumns {
    // The same with its columns lent.
    pub fn slices(&self) -> TaskSlices<'_>
        ensures { columns_lent result ≡ self.now }
    {
        TaskSlices {
            loads: &self.loads,
            periods: &self.periods,
        }
    }
}

impl FactorColumns {
    // The same with its columns lent.
    pub fn slices(&self) -> FactorSlices<'_>
        ensures { factors_lent result ≡ self.now }
    {
        FactorSlices {
            highs: &self.highs,
            lows: &self.lows,
        }
    }
}

// A start of the search for W(q): its place in the frame, the ticks of the windows before it, and the first number of ticks tried from it.
#[derive(Clone, Copy)]
pub struct Start {
    pub at: u32,
    pub before: u32,
    pub t: u64,
}

// Arrival count: ceil((t + K) ÷ P) in t ticks for t ≥ 1, zero in 0 ticks.
fn arrivals(period: u32, keep: u32, t: u32) -> u64
    requires { 1 ≤ period }
    ensures { result ≡ model_arrival.arrivals period keep t }
{
    if t == 0 {
        return 0;
    }
    let p = u64::from(period);
    (u64::from(t) + u64::from(keep) + p - 1) / p
}

// Load × arrival count of one task in t ticks that the search tries, by the parts of its period's factor.
fn term(load: u32, period: u32, high: u32, low: u32, keep: u32, t: u32) -> u64
    requires small { Small load period keep }
    requires factor { IsFactor period high low }
    requires tried { Tried t }
    ensures { IsTerm load period keep t result }
{
    u64::from(load) * u64::from(ceil_div(t + keep, period, high, low))
}

// The sum over the first n tasks of load × arrival count in t ticks.
pub fn above_load(
    columns: &TaskSlices,
    factors: &FactorSlices,
    keeps: &[u32],
    n: usize,
    t: u32,
) -> u64
    requires columns { HasTasks (columns_lent columns.now) keeps.now n }
    requires factored { HasFactors (columns_lent columns.now) (factors_lent factors.now) n }
    requires tried { Tried t }
    ensures { IsLoad columns.now.loads.now columns.now.periods.now keeps.now n t result }
{
    let mut sum: u64 = 0;
    for j in 0..n {
        sum += term(
            columns.loads[j],
            columns.periods[j],
            factors.highs[j],
            factors.lows[j],
            keeps[j],
            t,
        );
    }
    sum
}

// One load of each of the first n tasks.
pub fn once_each(loads: &[u32], n: usize) -> u64
    requires { Loads loads.now n }
    ensures { IsOnce loads.now n result }
{
    let mut sum: u64 = 0;
    for j in 0..n {
        sum += u64::from(loads[j]);
    }
    sum
}

// How much a number of ticks that the search tries counts as an evaluation: 1, and 0 with a frame.
pub fn tally_of(framed: bool) -> u64
    ensures { result ≡ tally_of framed }
{
    if framed {
        return 0;
    }
    1
}

// Start n of the search, and the least number of ticks from it among which `need` are ours.
pub fn start_at(supply: &SupplySlices, n: usize, need: u64) -> Start
    requires supplies { IsSupply (supply_lent supply.now) }
    requires n_bound { n < starts_of (frame_in (supply_lent supply.now)) }
    requires need_le_max_tick { need ≤ max_tick }
    ensures { StartedIn (supply_lent supply.now) n need result }
{
    let at = supply.start_of(n);
    let before = supply.within(at);
    let t = supply.reach_from(at, before, need);
    Start { at, before, t }
}

// Loads and periods of the tasks of a sheet, worked out once: the load is E + S. Slots past the count are 0.
pub fn columns_of(s: TaskSet) -> TaskColumns
    requires { Valid (view_of s) }
    ensures { Copied s s.count result.loads result.periods }
{
    let count = s.count;
    let charge = s.charge as u32;
    let mut loads: [u32; 32] = [0; 32];
    let mut periods: [u32; 32] = [0; 32];
    for j in 0..count {
        let t = s.tasks[j];
        loads[j] = t.cost + charge;
        periods[j] = t.period;
    }
    TaskColumns { loads, periods }
}

// The factors of the first n periods, worked out once. Slots past them are 0.
pub fn factors_of(periods: &[u32], n: usize) -> FactorColumns
    requires { Periods periods.now n }
    ensures { Prepared periods.now n result.highs result.lows }
{
    let mut highs: [u32; 32] = [0; 32];
    let mut lows: [u32; 32] = [0; 32];
    for j in 0..n {
        let m = factor_of(periods[j]);
        highs[j] = m.high;
        lows[j] = m.low;
    }
    FactorColumns { highs, lows }
}

// The checks of a call about one task with kept jitters, on a sheet with a frame or without: the sheet (5, 4, 6, 17), its frame (18), then 14, 13, 12.
pub fn check_framed(s: TaskSet, f: Option<Frame>, task: usize, kept: &[u32]) -> Result<(), Refusal>
    ensures { refusal_in result ≡ refusal_of (task_inputs (framed_of s f) task kept.now) }
{
    check_sheet(s, f)?;
    let count = s.count;
    if count <= task {
        return Err(Refusal {
            reason: Reason::NoSuchTask,
            place: task,
        });
    }
    if kept.len() < count {
        return Err(Refusal {
            reason: Reason::ShortSlice,
            place: count,
        });
    }
    taskset::check_kept(s, kept)
}

// The same without a frame.
pub fn check_call(s: TaskSet, task: usize, kept: &[u32]) -> Result<(), Refusal>
    ensures { refusal_in result ≡ refusal_of (task_inputs (view_of s) task kept.now) }
{
    check_framed(s, None, task, kept)
}

// Arrival count of one task in t ticks, with kept jitters.
pub fn arrival_count(s: TaskSet, task: usize, kept: &[u32], t: u32) -> Result<u64, Refusal>
    ensures { arrival_in result ≡ arrival_call (view_of s) task kept.now t }
{
    check_call(s, task, kept)?;
    let own = s.tasks[task];
    Ok(arrivals(own.period, kept[task], t))
}
