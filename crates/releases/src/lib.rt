// The checks of a list of releases in three columns: 10, 13, then 7, 8 and 9 release by release.
#![tactic(auto)]

ghost use Rattle.std.specs.Prelude.{◌≡◌, ℕ, ◌≤◌, ◌<◌, [], ◌∷◌, length};
ghost use Rattle.model.specs.Tasks.{Tasks};
ghost use Rattle.std.proofs.Math.Option.{some};
ghost use Rattle.model.specs.Checks.{release_fault, check_count, check_slots, check_releases, refusal_of};
ghost use Rattle.model.specs.Calls.{lends, releases_of, list_inputs};
ghost use Rattle.refusal.specs.Refusal.{refusal_in};
ghost use Rattle.taskset.specs.TaskSet.{view_of};
ghost use Rattle.model.specs.Checks.{fault_at};
ghost use Rattle.releases.specs.Releases.{release};
ghost use Rattle.releases.specs.Over.{over};

use refusal::{Reason, Refusal};
use taskset::TaskSet;

// The largest tick of a release.
const MAX_TICK: u64 = 1000000000000000;

// A list of releases in three columns: how many, and for each its task, its tick and its cost. Slots past the count are not looked at.
#[derive(Clone, Copy)]
pub struct Releases<'a> {
    pub count: usize,
    pub task: &'a [u32],
    pub tick: &'a [u64],
    pub cost: &'a [u32],
}

// One release of a task whose cost is `most`, whose tick may be `low` to `high`: 8 or 9 with the place given, or nothing wrong.
pub fn check_release(
    place: usize,
    low: u64,
    high: u64,
    most: u32,
    tick: u64,
    cost: u32,
) -> Result<(), Refusal>
    ensures { (s : Tasks) (task : ℕ) → task < s.count → s.cost task ≡ most → refusal_in result ≡ fault_at place (release_fault s low high (release task tick cost)) }
{
    if tick < low {
        return Err(Refusal {
            reason: Reason::ReleaseTick,
            place: place,
        });
    }
    if high < tick {
        return Err(Refusal {
            reason: Reason::ReleaseTick,
            place: place,
        });
    }
    if cost == 0 {
        return Err(Refusal {
            reason: Reason::ReleaseCost,
            place: place,
        });
    }
    if most < cost {
        return Err(Refusal {
            reason: Reason::ReleaseCost,
            place: place,
        });
    }
    Ok(())
}

// The releases in order, none of them before tick `since`: 7, 8 or 9 at the first release with a fault.
pub fn check_releases(s: TaskSet, since: u64, list: &Releases) -> Result<(), Refusal>
    requires { (s.count ≤ 32) × (list.now.count ≤ length list.now.task.now) × (list.now.count ≤ length list.now.tick.now) × (list.now.count ≤ length list.now.cost.now) }
    ensures { refusal_in result ≡ check_releases (view_of s) since 0 (over releases_of list.now) }
{
    let Releases {
        count,
        task,
        tick,
        cost,
    } = *list;
    let tasks = s.count;
    let mut before = since;
    for i in 0..count {
        let next = tick[i];
        let at = task[i] as usize;
        if tasks <= at {
            return Err(Refusal {
                reason: Reason::ReleaseTask,
                place: i,
            });
        }
        let t = s.tasks[at];
        check_release(i, before, MAX_TICK, t.cost, next, cost[i])?;
        before = next;
    }
    Ok(())
}

// The count of a list: 10 where it is over 1,024.
pub fn check_count(count: usize) -> Result<(), Refusal>
    ensures { refusal_in result ≡ check_count (some count) }
{
    if 1024 < count {
        return Err(Refusal {
            reason: Reason::TooManyReleases,
            place: 1024,
        });
    }
    Ok(())
}

// The columns of a list: 13 where one is shorter than the count.
pub fn check_columns(count: usize, task: &[u32], tick: &[u64], cost: &[u32]) -> Result<(), Refusal>
    ensures { refusal_in result ≡ check_slots (lends count task.now ∷ lends count tick.now ∷ lends count cost.now ∷ []) }
{
    if task.len() < count {
        return Err(Refusal {
            reason: Reason::ShortSlice,
            place: count,
        });
    }
    if tick.len() < count {
        return Err(Refusal {
            reason: Reason::ShortSlice,
            place: count,
        });
    }
    if cost.len() < count {
        return Err(Refusal {
            reason: Reason::ShortSlice,
            place: count,
        });
    }
    Ok(())
}

// A sheet and a list: the sheet (5, 4, 6), the list's count (10), its columns (13), its releases (7, 8, 9).
pub fn check_list(s: TaskSet, list: &Releases) -> Result<(), Refusal>
    ensures { refusal_in result ≡ refusal_of (over (list_inputs (view_of s)) list.now) }
{
    taskset::check(s)?;
    check_count(list.count)?;
    check_columns(list.count, list.task, list.tick, list.cost)?;
    check_releases(s, 0, list)
}
