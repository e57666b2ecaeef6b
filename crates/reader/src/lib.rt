// Reader of the file.
#![tactic(auto)]

ghost use Rattle.std.specs.Prelude.{◌≤◌, ◌+◌, ◌*◌, length};
ghost use Rattle.reader.specs.Reader.{releases_at, AreReleases, Listed, Putting, ScanSays, ReadSays};

use records::{Fault, Record, check_job, job_at, record_at};
use refusal::{Reason, Refusal};
use taskset::TaskSet;

// What the scan of a whole file finds: the tasks with the charge, the number of releases and the offset at which they start.
#[derive(Clone, Copy)]
pub struct Scanned {
    pub tasks: TaskSet,
    pub releases: usize,
    pub start: usize,
}

// The whole file, record by record. The releases are checked and counted. Each kind of release has a branch of its own, in which the ticks
// that it may have are known.
fn scan(f: &[u8]) -> Result<Scanned, Refusal>
    ensures { ScanSays f.now result }
{
    let mut tasks = entries::no_tasks();
    let mut releases = 0;
    let mut before: u64 = 0;
    let mut start = 0;
    let mut at = 0;
    // The number of turns is not known before, so this is no `for`.
    loop {
        match record_at(f, at) {
            Err(Fault::Reason(reason)) => return Err(Refusal { reason, place: at }),
            Err(Fault::Mark) => return Err(Refusal {
                reason: entries::mark_fault(tasks.count, releases),
                place: at,
            }),
            Ok(Record::Task(task)) => {
                let n = tasks.count;
                entries::check_task(tasks.charge, n, releases, at, task)?;
                tasks.tasks[n] = task;
                tasks.count = n + 1;
                at += entries::task_size(task.low);
                start = at;
            }
            Ok(Record::Release(job)) => {
                if tasks.count == 0 {
                    return Err(Refusal {
                        reason: Reason::NoTask,
                        place: at,
                    });
                }
                let i = job.task as usize;
                if tasks.count <= i {
                    return Err(Refusal {
                        reason: Reason::ReleaseTask,
                        place: at,
                    });
                }
                let own = tasks.tasks[i];
                check_job(releases, at, before, own.cost, false, job)?;
                releases += 1;
                before = job.tick;
                at += 10;
            }
            Ok(Record::LongRelease(job)) => {
                if tasks.count == 0 {
                    return Err(Refusal {
                        reason: Reason::NoTask,
                        place: at,
                    });
                }
                let whose = job.task as usize;
                if tasks.count <= whose {
                    return Err(Refusal {
                        reason: Reason::ReleaseTask,
                        place: at,
                    });
                }
                let own = tasks.tasks[whose];
                check_job(releases, at, before, own.cost, true, job)?;
                releases += 1;
                before = job.tick;
                at += 14;
            }
            Ok(Record::Charge(charge)) => {
                entries::check_charge(tasks.charge, tasks.count, releases, at, charge)?;
                tasks.charge = charge;
                at += 2;
                start = at;
            }
            Ok(Record::End) => {
                if tasks.count == 0 {
                    return Err(Refusal {
                        reason: Reason::NoTask,
                        place: at,
                    });
                }
                if at + 1 < f.len() {
                    return Err(Refusal {
                        reason: Reason::ByteAfterEnd,
                        place: at + 1,
                    });
                }
                return Ok(Scanned {
                    tasks,
                    releases,
                    start,
                });
            }
        }
    }
}

// What a read finds: the sheet, of which the entries past the count are 0, and the number of releases.
#[derive(Clone, Copy)]
pub struct ReadAnswer {
    pub tasks: TaskSet,
    pub releases: usize,
}

// Writes to three columns the releases whose records stand one after another from an offset on, as long as they are short; the answer is how
// many. Slots past them keep what they held.
fn put_shorts(
    f: &[u8],
    start: usize,
    count: usize,
    task: &mut [u32],
    tick: &mut [u64],
    cost: &mut [u32],
) -> usize
    requires { (start ≤ length f.now)
        × AreReleases f.now start count
        × (count ≤ length task.old)
        × (count ≤ length tick.old)
        × (count ≤ length cost.old) }
    ensures { Putting f.now start count task.old tick.old cost.old
        task.new tick.new cost.new (start + 10 * result) result }
{
    for i in 0..count {
        let at = start + 10 * i;
        if f[at] != 2 {
            return i;
        }
        let job = job_at(f, at + 1, false);
        task[i] = job.task;
        tick[i] = job.tick;
        cost[i] = job.cost;
    }
    count
}

// Goes on with a list of which the first releases are written, all of them short: writes the others, whatever their kinds.
fn put_rest(
    f: &[u8],
    start: usize,
    count: usize,
    from: usize,
    task: &mut [u32],
    tick: &mut [u64],
    cost: &mut [u32],
)
    requires { Putting f.now start count task.old tick.old cost.old task.old tick.old cost.old (start + 10 * from) from }
    ensures { Listed (releases_at f.now start count) task.old tick.old cost.old
        task.new tick.new cost.new }
{
    let mut at = start + 10 * from;
    for i in from..count {
        let long = f[at] == 4;
        let j = job_at(f, at + 1, long);
        task[i] = j.task;
        tick[i] = j.tick;
        cost[i] = j.cost;
        at += entries::release_size(long);
    }
}

// Writes to three columns the releases whose records stand one after another from an offset on; slots past them keep what they held. Ticks
// never fall, so the short records come first.
fn put_columns(
    f: &[u8],
    start: usize,
    count: usize,
    task: &mut [u32],
    tick: &mut [u64],
    cost: &mut [u32],
)
    requires { (start ≤ length f.now)
        × AreReleases f.now start count
        × (count ≤ length task.old)
        × (count ≤ length tick.old)
        × (count ≤ length cost.old) }
    ensures { Listed (releases_at f.now start count) task.old tick.old cost.old
        task.new tick.new cost.new }
{
    let shorts = put_shorts(f, start, count, task, tick, cost);
    put_rest(f, start, count, shorts, task, tick, cost);
}

// Reads a file: the sheet and, to the columns lent, its releases. The columns are checked (13) after the whole file; a refusal changes no slot.
pub fn read(
    f: &[u8],
    task: &mut [u32],
    tick: &mut [u64],
    cost: &mut [u32],
) -> Result<ReadAnswer, Refusal>
    ensures { ReadSays f.now task.old tick.old cost.old result task.new tick.new cost.new }
{
    let s = scan(f)?;
    let count = s.releases;
    releases::check_columns(count, task, tick, cost)?;
    put_columns(f, s.start, count, task, tick, cost);
    Ok(ReadAnswer {
        tasks: s.tasks,
        releases: count,
    })
}
