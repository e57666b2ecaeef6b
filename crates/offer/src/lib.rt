// Ask (document 02, R-11): a new task at a priority place of the sheet held, and the new sheet with its choice as one record. Nothing is changed.
#![tactic(auto)]

ghost use Rattle.std.specs.Prelude.{◌≡◌, ◌≤◌, ◌<◌};
ghost use Rattle.refusal.specs.Refusal.{refusal_in};
ghost use Rattle.model.specs.Choice.{scope_in};
ghost use Rattle.taskset.specs.TaskSet.{entry_of};
ghost use Rattle.frame.specs.FrameView.{framed_of};
ghost use Rattle.admission.specs.Offers as admission_offers;
ghost use Rattle.plan.specs.PlanView.{task_entry};
ghost use Rattle.choice.specs.Choices.{extent_in};
ghost use Rattle.offer.specs.Plans.{plan_in, inserted_sheet, ask_first};

use choice::Extent;
use frame::Frame;
use plan::Plan;
use refusal::{Reason, Refusal};
use taskset::{Task, TaskSet};

// Whether a choice is that of the high tasks alone.
fn is_partial(extent: Extent) -> bool
    ensures { scope_in result ≡ extent_in extent }
{
    match extent {
        Extent::All => false,
        Extent::HighOnly => true,
    }
}

// A sheet with the choice made of it, or the choice's refusal: 5, 4, 6 and 17 by task, 18, 15.
pub fn plan_of(s: TaskSet, f: Option<Frame>) -> Result<Plan, Refusal>
    ensures { plan_in f result ≡ admission_offers.plan_call (framed_of s f) }
{
    let mut keep: [u32; 32] = [0; 32];
    let mut worst: [u32; 32] = [0; 32];
    let extent = choice::choose(s, f, &mut keep, &mut worst)?;
    Ok(Plan {
        tasks: s,
        keep,
        worst,
        partial: is_partial(extent),
    })
}

// The entry of task i of the new sheet.
fn shifted(s: TaskSet, place: usize, t: Task, i: usize) -> Task
    requires { (i ≤ s.count) × (s.count < 32) }
    ensures { result ≡ admission_offers.inserted place t (entry_of s) i }
{
    if i < place {
        return s.tasks[i];
    }
    if i == place {
        return t;
    }
    s.tasks[i - 1]
}

// The new sheet: the task at its place, those from there on one place lower.
fn insert(s: TaskSet, place: usize, t: Task) -> TaskSet
    requires { s.count < 32 }
    ensures { result ≡ inserted_sheet s place t }
{
    let none = Task {
        period: 0,
        jitter: 0,
        cost: 0,
        deadline: 0,
        low: false,
    };
    let mut tasks = [none; 32];
    let count = s.count;
    for i in 0..count + 1 {
        tasks[i] = shifted(s, place, t, i);
    }
    TaskSet {
        tasks,
        count: count + 1,
        charge: s.charge,
    }
}

// The checks of an ask before the new task: the sheet held and its frame (5, 4, 6, 17, 18), 14 for a place over the count, then 4 where 32 tasks are held.
fn check_ask(s: TaskSet, f: Option<Frame>, place: usize) -> Result<(), Refusal>
    ensures { refusal_in result ≡ ask_first (framed_of s f) place }
{
    frame::check_sheet(s, f)?;
    if s.count < place {
        return Err(Refusal {
            reason: Reason::NoSuchTask,
            place: place,
        });
    }
    if 32 <= s.count {
        return Err(Refusal {
            reason: Reason::TooManyTasks,
            place: 32,
        });
    }
    Ok(())
}

// Ask: the new sheet with its choice, or a refusal of the sheet held and its frame (5, 4, 6, 17, 18), of the place (14), or of the new sheet (4, 6, 17, 15). The record
// says what the definition says; entries past its count are 0.
#[inline(always)]
pub fn ask(s: TaskSet, f: Option<Frame>, t: Task, place: usize) -> Result<Plan, Refusal>
    ensures { admission_offers.SameAnswer (plan_in f result) (admission_offers.ask_call (framed_of s f) (task_entry t) place) }
{
    check_ask(s, f, place)?;
    let new = insert(s, place, t);
    plan_of(new, f)
}
