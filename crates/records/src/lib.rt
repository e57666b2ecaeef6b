// Records of the file: the one at an offset, and whether a release record may follow the records before it.
#![tactic(auto)]

ghost use Rattle.std.specs.Prelude.{◌≡◌, ◌≤◌, ◌<◌, ◌+◌, length, drop};
ghost use Rattle.model.specs.Tasks.{Tasks};
ghost use Rattle.model.specs.Checks.{fault_at};
ghost use Rattle.refusal.specs.Refusal.{refusal_in};
ghost use Rattle.fileformat.specs.Numbers.{field};
ghost use Rattle.fileformat.specs.Records.{width_in, body_size, task_from, release_from, record_of};
ghost use Rattle.fileformat.specs.File.{low_tick, high_tick, list_fault};
ghost use Rattle.records.specs.RecordIn.{release_of, record_in};

use refusal::{Reason, Refusal};
use taskset::Task;

// A release as it stands in a file.
#[derive(Clone, Copy)]
pub struct Job {
    pub task: u32,
    pub tick: u64,
    pub cost: u32,
}

// A record. The tick of a long release record (kind 4) has eight bytes.
#[derive(Clone, Copy)]
pub enum Record {
    Task(Task),
    Release(Job),
    LongRelease(Job),
    Charge(u8),
    End,
}

// What is wrong with a record: 1 or 2, or that the last byte of a kind 6 record is not 0.
#[derive(Clone, Copy, Debug, PartialEq, Eq)]
pub enum Fault {
    Reason(Reason),
    Mark,
}

// The number of the four bytes at an offset, the low byte first.
fn number_at(f: &[u8], at: usize) -> u32
    requires { at + 4 ≤ length f.now }
    ensures { result ≡ field at 4 f.now }
{
    let a = u32::from(f[at]);
    let b = u32::from(f[at + 1]);
    let c = u32::from(f[at + 2]);
    let d = u32::from(f[at + 3]);
    a + 256 * b + 65536 * c + 16777216 * d
}

// The number of the eight bytes at an offset, the low byte first.
fn wide_number_at(f: &[u8], at: usize) -> u64
    requires { at + 8 ≤ length f.now }
    ensures { result ≡ field at 8 f.now }
{
    let low = u64::from(number_at(f, at));
    let high = u64::from(number_at(f, at + 4));
    low + 4294967296 * high
}

// The numbers of a task record, given its mark.
fn task_at(f: &[u8], at: usize, low: bool) -> Task
    requires { at + 16 ≤ length f.now }
    ensures { result ≡ task_from low (drop at f.now) }
{
    let period = number_at(f, at);
    let jitter = number_at(f, at + 4);
    let cost = number_at(f, at + 8);
    let deadline = number_at(f, at + 12);
    Task {
        period,
        jitter,
        cost,
        deadline,
        low,
    }
}

// The body of a release record.
pub fn job_at(f: &[u8], at: usize, long: bool) -> Job
    requires { at + body_size (width_in long) ≤ length f.now }
    ensures { release_of result ≡ release_from (width_in long) (drop at f.now) }
{
    let task = u32::from(f[at]);
    if long {
        let late = wide_number_at(f, at + 1);
        let cost = number_at(f, at + 9);
        return Job {
            task,
            tick: late,
            cost,
        };
    }
    let tick = u64::from(number_at(f, at + 1));
    let cost = number_at(f, at + 5);
    Job { task, tick, cost }
}

// The record at an offset: 1 where there is no such kind, 2 where the file ends inside it or where a kind is due.
pub fn record_at(f: &[u8], at: usize) -> Result<Record, Fault>
    requires { at ≤ length f.now }
    ensures { record_in result ≡ record_of (drop at f.now) }
{
    let left = f.len() - at;
    if left == 0 {
        return Err(Fault::Reason(Reason::CutOff));
    }
    let kind = f[at];
    if kind < 3 {
        if kind == 2 {
            if left < 10 {
                return Err(Fault::Reason(Reason::CutOff));
            }
            let job = job_at(f, at + 1, false);
            return Ok(Record::Release(job));
        }
        if kind == 1 {
            if left < 17 {
                return Err(Fault::Reason(Reason::CutOff));
            }
            let task = task_at(f, at + 1, false);
            return Ok(Record::Task(task));
        }
        return Err(Fault::Reason(Reason::UnknownKind));
    }
    if kind == 3 {
        return Ok(Record::End);
    }
    if kind == 4 {
        if left < 14 {
            return Err(Fault::Reason(Reason::CutOff));
        }
        let job = job_at(f, at + 1, true);
        return Ok(Record::LongRelease(job));
    }
    if kind == 5 {
        if left < 2 {
            return Err(Fault::Reason(Reason::CutOff));
        }
        return Ok(Record::Charge(f[at + 1]));
    }
    if kind == 6 {
        if left < 18 {
            return Err(Fault::Reason(Reason::CutOff));
        }
        if f[at + 17] != 0 {
            return Err(Fault::Mark);
        }
        let task = task_at(f, at + 1, true);
        return Ok(Record::Task(task));
    }
    Err(Fault::Reason(Reason::UnknownKind))
}

// The least tick that a release record may have after the tick before it.
fn low_tick(long: bool, before: u64) -> u64
    ensures { result ≡ low_tick (width_in long) before }
{
    if long {
        return before.max(1000000001);
    }
    before
}

// The largest tick that a release record may have.
fn high_tick(long: bool) -> u64
    ensures { result ≡ high_tick (width_in long) }
{
    if long { 1000000000000000 } else { 1000000000 }
}

// What is wrong with a release record of a task whose cost is `most`, after so many releases: 8, 9 or 10, with the offset given.
pub fn check_job(
    releases: usize,
    at: usize,
    before: u64,
    most: u32,
    long: bool,
    j: Job,
) -> Result<(), Refusal>
    ensures { (s : Tasks) → j.task < s.count → s.cost j.task ≡ most → refusal_in result ≡ fault_at at (list_fault s releases before (width_in long) (release_of j)) }
{
    let low = low_tick(long, before);
    let high = high_tick(long);
    releases::check_release(at, low, high, most, j.tick, j.cost)?;
    if 1024 <= releases {
        return Err(Refusal {
            reason: Reason::TooManyReleases,
            place: at,
        });
    }
    Ok(())
}
