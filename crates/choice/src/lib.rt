// The choice of kept jitters.
#![tactic(auto)]

ghost use Rattle.std.specs.Prelude.{◌≡◌, ◌≤◌, ◌++◌, length, take, drop};
ghost use Rattle.model.specs.Tasks.{Valid};
ghost use Rattle.model.specs.Checks.{refusal_of};
ghost use Rattle.model.specs.Choice.{choice};
ghost use Rattle.model.specs.Calls.{choice_inputs, choice_call, column_after, kept_column, worst_column};
ghost use Rattle.refusal.specs.Refusal.{refusal_in};
ghost use Rattle.taskset.specs.TaskSet.{view_of};
ghost use Rattle.frame.specs.FrameView.{framed_of};
ghost use Rattle.frame.specs.WindowColumns.{IsSupply, frame_in, supply_lent};
ghost use Rattle.demand.specs.Columns.{HasFactors, columns_lent, factors_lent};
ghost use Rattle.keeping.specs.Keeping.{Walkable};
ghost use Rattle.choice.specs.Choices.{KeepOf, ChoicesAre, any_low, DecisionIs, room_inputs, extent_in, spares, scope_told};

use demand::{FactorSlices, TaskSlices, columns_of, factors_of};
use frame::{Frame, SupplySlices, check_sheet, supply_of};
use keeping::{Least, least_keep};
use refusal::{Reason, Refusal};
use taskset::TaskSet;

// Kept jitters and largest R of the first tasks, as many as have a kept jitter, 0 past them and 0 for those that are not judged; and the evaluations that they
// took.
#[derive(Clone, Copy)]
pub struct Choices {
    pub keep: [u32; 32],
    pub worst: [u32; 32],
    pub fitted: usize,
    pub evaluations: u64,
}

// Which tasks a choice judges: all, or the high ones alone.
#[derive(Clone, Copy, Debug, PartialEq, Eq)]
pub enum Extent {
    All,
    HighOnly,
}

// The choice that is the answer, and which of the two it is.
#[derive(Clone, Copy)]
pub struct Decision {
    pub choices: Choices,
    pub extent: Extent,
}

// The kept jitter of task i, given the kept jitters of the tasks above: 0 where it is spared, that is, not judged; else the least at which it fits.
fn keep_for(
    columns: &TaskSlices,
    factors: &FactorSlices,
    keeps: &[u32],
    supply: &SupplySlices,
    i: usize,
    jitter: u32,
    deadline: u32,
    spared: bool,
) -> Option<Least>
    requires walkable { Walkable columns.now.loads.now columns.now.periods.now keeps.now i jitter deadline }
    requires factored { HasFactors (columns_lent columns.now) (factors_lent factors.now) i }
    requires supplies { IsSupply (supply_lent supply.now) }
    ensures { KeepOf spared (frame_in (supply_lent supply.now)) columns.now.loads.now columns.now.periods.now keeps.now i jitter deadline result }
{
    if spared {
        return Some(Least {
            keep: 0,
            worst: 0,
            last: 0,
            evaluations: 0,
        });
    }
    least_keep(columns, factors, keeps, supply, i, jitter, deadline)
}

// Whether a task is spared: a low one, where the high ones alone are judged.
fn is_spared(extent: Extent, low: bool) -> bool
    ensures { result ≡ spares extent low }
{
    match extent {
        Extent::All => false,
        Extent::HighOnly => low,
    }
}

// A choice of a sheet within its limits, of all tasks or of the high ones alone, from task 0 down to the first task that is judged and fits at no K. The lowest task is
// above no other, so its factor is not needed.
fn choices_of(s: TaskSet, f: Option<Frame>, extent: Extent) -> Choices
    requires { Valid (framed_of s f) }
    ensures { ChoicesAre (extent_in extent) (framed_of s f) result }
{
    let columns = columns_of(s);
    let count = s.count;
    let factors = factors_of(&columns.periods, count - 1);
    let supply = supply_of(f);
    let lent_columns = columns.slices();
    let lent_factors = factors.slices();
    let lent_supply = supply.slices();
    let mut keep: [u32; 32] = [0; 32];
    let mut worst: [u32; 32] = [0; 32];
    let mut evaluations: u64 = 0;
    for i in 0..count {
        let own = s.tasks[i];
        let spared = is_spared(extent, own.low);
        let found = keep_for(
            &lent_columns,
            &lent_factors,
            &keep,
            &lent_supply,
            i,
            own.jitter,
            own.deadline,
            spared,
        );
        let Some(least) = found else {
            return Choices {
                keep,
                worst,
                fitted: i,
                evaluations,
            };
        };
        keep[i] = least.keep;
        worst[i] = least.worst;
        evaluations += least.evaluations;
    }
    Choices {
        keep,
        worst,
        fitted: count,
        evaluations,
    }
}

// Whether one of the first n tasks is low.
fn any_low(s: TaskSet, n: usize) -> bool
    requires { n ≤ 32 }
    ensures { result ≡ any_low (view_of s).low n }
{
    for i in 0..n {
        let t = s.tasks[i];
        if t.low {
            return true;
        }
    }
    false
}

// The choice of a sheet within its limits: that of all tasks, and where a task fits at no K, that of the high tasks alone. Without a low task down to that one both are the
// same, and it is not made anew.
fn decide(s: TaskSet, f: Option<Frame>) -> Decision
    requires { Valid (framed_of s f) }
    ensures { DecisionIs (framed_of s f) result }
{
    let first = choices_of(s, f, Extent::All);
    let fitted = first.fitted;
    if s.count <= fitted {
        return Decision {
            choices: first,
            extent: Extent::All,
        };
    }
    if any_low(s, fitted + 1) {
        let second = choices_of(s, f, Extent::HighOnly);
        return Decision {
            choices: second,
            extent: Extent::HighOnly,
        };
    }
    Decision {
        choices: first,
        extent: Extent::HighOnly,
    }
}

// Copies the first n numbers of a column into a lent one.
fn put(column: &[u32], n: usize, out: &mut [u32])
    requires { (n ≤ length column.now) × (n ≤ length out.old) }
    ensures { out.new ≡ take n column.now ++ drop n out.old }
{
    out[..n].copy_from_slice(&column[..n]);
}

// The checks before a choice on a sheet with a frame or without: the sheet (5, 4, 6, 17), its frame (18), then room in both columns (13).
pub fn check_room(s: TaskSet, f: Option<Frame>, kept: usize, worst: usize) -> Result<(), Refusal>
    ensures { refusal_in result ≡ refusal_of (room_inputs (framed_of s f) kept worst) }
{
    check_sheet(s, f)?;
    let count = s.count;
    if kept < count {
        return Err(Refusal {
            reason: Reason::ShortSlice,
            place: count,
        });
    }
    if worst < count {
        return Err(Refusal {
            reason: Reason::ShortSlice,
            place: count,
        });
    }
    Ok(())
}

// Choice on a sheet with a frame or without: for each task from task 0 down the least K in 0..J at which its verdict is "fits", given the choices above, into `kept`,
// and its largest R into `worst`.
// Where a task fits at no K, the choice is made anew with every low task kept at 0 and not judged, its worst value being 0; the answer tells which of the two it is.
// A refusal, 15 at the first high task that fits at no K then included, leaves both columns.
pub fn choose(
    s: TaskSet,
    f: Option<Frame>,
    kept: &mut [u32],
    worst: &mut [u32],
) -> Result<Extent, Refusal>
    ensures result_value { scope_told result ≡ choice_call (framed_of s f) kept.old worst.old }
    ensures kept_after { kept.new
        ≡ column_after (refusal_of (choice_inputs (framed_of s f) kept.old worst.old)) (kept_column (choice (framed_of s f))) kept.old }
    ensures worst_after { worst.new
        ≡ column_after (refusal_of (choice_inputs (framed_of s f) kept.old worst.old)) (worst_column (choice (framed_of s f))) worst.old }
{
    check_room(s, f, kept.len(), worst.len())?;
    let count = s.count;
    let decided = decide(s, f);
    let fitted = decided.choices.fitted;
    if fitted < count {
        return Err(Refusal {
            reason: Reason::Unfit,
            place: fitted,
        });
    }
    put(&decided.choices.keep, count, kept);
    put(&decided.choices.worst, count, worst);
    Ok(decided.extent)
}
