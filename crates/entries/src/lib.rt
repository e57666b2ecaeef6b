// Entries of a sheet that is read or loaded: none yet, and the check of the charge and of one task more; the bytes of records.
#![tactic(auto)]

ghost use Rattle.std.specs.Prelude.{◌≡◌, ◌≤◌, []};
ghost use Rattle.refusal.specs.Refusal.{number_of, refusal_in};
ghost use Rattle.taskset.specs.TaskSet.{view_of};
ghost use Rattle.model.specs.Checks.{fault_at};
ghost use Rattle.fileformat.specs.Records.{width_in, task_size, release_size};
ghost use Rattle.fileformat.specs.File.{charge_fault, task_fault, mark_fault};
ghost use Rattle.fileformat.specs.FileCalls.{set_of, charge_bytes, sheet_bytes};

use refusal::{Reason, Refusal};
use taskset::{Task, TaskSet};

// No tasks and no charge; all entries are 0 and high.
pub fn no_tasks() -> TaskSet
    ensures { result ≡ set_of [] }
{
    let t = Task {
        period: 0,
        jitter: 0,
        cost: 0,
        deadline: 0,
        low: false,
    };
    TaskSet {
        tasks: [t; 32],
        count: 0,
        charge: 0,
    }
}

// What is wrong with a charge after so many tasks and releases, given the charge so far: 3 or 6, with the place given.
pub fn check_charge(
    held: u8,
    tasks: usize,
    releases: usize,
    at: usize,
    charge: u8,
) -> Result<(), Refusal>
    ensures { refusal_in result ≡ fault_at at (charge_fault held tasks releases charge) }
{
    if 0 < held {
        return Err(Refusal {
            reason: Reason::TaskAfterRelease,
            place: at,
        });
    }
    if 0 < tasks {
        return Err(Refusal {
            reason: Reason::TaskAfterRelease,
            place: at,
        });
    }
    if 0 < releases {
        return Err(Refusal {
            reason: Reason::TaskAfterRelease,
            place: at,
        });
    }
    if charge == 0 {
        return Err(Refusal {
            reason: Reason::OutOfRange,
            place: at,
        });
    }
    Ok(())
}

// The bytes of the record of a charge, which there is where it is not 0.
pub fn charge_size(charge: u8) -> usize
    ensures { result ≡ charge_bytes charge }
{
    if 0 < charge { 2 } else { 0 }
}

// The bytes of the record of a task, by its mark.
pub fn task_size(low: bool) -> usize
    ensures { result ≡ task_size low }
{
    if low { 18 } else { 17 }
}

// The bytes of the records of a sheet: its charge and its tasks.
pub fn sheet_size(s: TaskSet) -> usize
    requires { s.count ≤ 32 }
    ensures { result ≡ sheet_bytes (view_of s) }
{
    let mut size = charge_size(s.charge);
    for i in 0..s.count {
        size += task_size(s.tasks[i].low);
    }
    size
}

// The bytes of a release record.
pub fn release_size(long: bool) -> usize
    ensures { result ≡ release_size (width_in long) }
{
    if long { 14 } else { 10 }
}

// What is wrong with a task after so many tasks and releases, given the charge: 3, 4, 6 or 17, with the place given.
pub fn check_task(
    charge: u8,
    tasks: usize,
    releases: usize,
    at: usize,
    t: Task,
) -> Result<(), Refusal>
    ensures { refusal_in result ≡ fault_at at (task_fault charge tasks releases t) }
{
    if 0 < releases {
        return Err(Refusal {
            reason: Reason::TaskAfterRelease,
            place: at,
        });
    }
    if 32 <= tasks {
        return Err(Refusal {
            reason: Reason::TooManyTasks,
            place: at,
        });
    }
    taskset::check_entry(charge, at, t)
}

// What is wrong with a kind 6 record after so many tasks and releases, its last byte not being 0: 3, 4 or 6.
pub fn mark_fault(tasks: usize, releases: usize) -> Reason
    ensures { number_of result ≡ mark_fault tasks releases }
{
    if 0 < releases {
        return Reason::TaskAfterRelease;
    }
    if tasks < 32 {
        Reason::OutOfRange
    } else {
        Reason::TooManyTasks
    }
}
