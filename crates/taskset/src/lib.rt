// The task set (document 01's "sheet"), its limits and its checks.
#![tactic(auto)]

ghost use Rattle.std.specs.Prelude.{◌≡◌, ◌≤◌, length};
ghost use Rattle.std.proofs.Math.Option.{some};
ghost use Rattle.model.specs.Choice.{column};
ghost use Rattle.model.specs.Checks.{in_range, entry_fault, fault_at, check_tasks, check_kept};
ghost use Rattle.refusal.specs.Refusal.{refusal_in};
ghost use Rattle.taskset.specs.TaskSet.{view_of};

use refusal::{Reason, Refusal};

// "Pickup": the ticks from a job's ready tick to the first in which it may run. R(q) has as many more.
pub const PICKUP: u64 = 1;

// A task: period P, jitter J, cost E and deadline D, and its mark: low, or high where it is not low.
#[derive(Clone, Copy, Debug, PartialEq, Eq)]
pub struct Task {
    pub period: u32,
    pub jitter: u32,
    pub cost: u32,
    pub deadline: u32,
    pub low: bool,
}

// "Sheet": a count and 32 task entries, task 0 with the highest priority, and the charge S that each job takes beside its cost, 0 where
// there is none. Entries past the count are not looked at. An array with a count, as all of the library: it has no heap.
#[derive(Clone, Copy)]
pub struct TaskSet {
    pub tasks: [Task; 32],
    pub count: usize,
    pub charge: u8,
}

// Whether P, J, E and D are within document 01's limits.
pub fn in_range(t: Task) -> bool
    ensures { result ≡ in_range t.period t.jitter t.cost t.deadline }
{
    if t.period < 1 {
        return false;
    }
    if 1000000 < t.period {
        return false;
    }
    if 1000000 < t.jitter {
        return false;
    }
    if t.cost < 1 {
        return false;
    }
    if t.period < t.cost {
        return false;
    }
    if t.deadline < t.cost {
        return false;
    }
    if 1000000 < t.deadline {
        return false;
    }
    true
}

// What is wrong with a task of a sheet with a charge: 6, then 17, with the place given.
pub fn check_entry(charge: u8, at: usize, t: Task) -> Result<(), Refusal>
    ensures { refusal_in result ≡ fault_at at (entry_fault charge t.period t.jitter t.cost t.deadline) }
{
    if !in_range(t) {
        return Err(Refusal {
            reason: Reason::OutOfRange,
            place: at,
        });
    }
    let load = t.cost + charge as u32;
    if t.period < load {
        return Err(Refusal {
            reason: Reason::Charge,
            place: at,
        });
    }
    if t.deadline < load {
        return Err(Refusal {
            reason: Reason::Charge,
            place: at,
        });
    }
    Ok(())
}

// The check of a sheet: 5, 4, then 6 and 17 by task.
pub fn check(s: TaskSet) -> Result<(), Refusal>
    ensures { refusal_in result ≡ check_tasks (view_of s) }
{
    let count = s.count;
    if count == 0 {
        return Err(Refusal {
            reason: Reason::NoTask,
            place: 0,
        });
    }
    if 32 < count {
        return Err(Refusal {
            reason: Reason::TooManyTasks,
            place: 32,
        });
    }
    for i in 0..count {
        let t = s.tasks[i];
        check_entry(s.charge, i, t)?;
    }
    Ok(())
}

// The check of a column of kept jitters, one for each task: 12 at the first task with K > J.
pub fn check_kept(s: TaskSet, kept: &[u32]) -> Result<(), Refusal>
    requires { (s.count ≤ 32) × (s.count ≤ length kept.now) }
    ensures { refusal_in result ≡ check_kept (view_of s) (some (column kept.now)) }
{
    let count = s.count;
    for i in 0..count {
        let t = s.tasks[i];
        if t.jitter < kept[i] {
            return Err(Refusal {
                reason: Reason::KeptOverJitter,
                place: i,
            });
        }
    }
    Ok(())
}
