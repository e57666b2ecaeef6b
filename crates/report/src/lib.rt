// The programs' text, written into a lent buffer.
#![tactic(auto)]

ghost use Rattle.std.specs.Prelude.{◌≡◌, ◌+◌, ◌≤◌, length};
ghost use Rattle.model.specs.Choice.{scope_in};
ghost use Rattle.refusal.specs.Refusal.{number_of};
ghost use Rattle.taskset.specs.TaskSet.{view_of};
ghost use Rattle.text.specs.Text.{lines};
ghost use Rattle.report.specs.Report.{choice_fields, choice_line, last_line, choice_text, run_fields, run_line, run_text, refusal_text};
ghost use Rattle.report.specs.PutLine.{PutLine};

use refusal::Refusal;
use taskset::{Task, TaskSet};

// The line of one task: task, P, J, E, D, K, largest R.
fn put_task(out: &mut [u8], at: usize, i: u32, t: Task, k: u32, w: u32) -> usize
    requires { at + 77 ≤ length out.old }
    ensures { PutLine 77 out.old at (choice_fields i t.period t.jitter t.cost t.deadline k w) out.new result }
{
    let a = text::put_field(out, at, i, 32);
    let b = text::put_field(out, a, t.period, 32);
    let c = text::put_field(out, b, t.jitter, 32);
    let d = text::put_field(out, c, t.cost, 32);
    let e = text::put_field(out, d, t.deadline, 32);
    let f = text::put_field(out, e, k, 32);
    text::put_field(out, f, w, 10)
}

// The line of one release: place in the list, task, release, ready, finish, response.
fn put_job(
    out: &mut [u8],
    at: usize,
    p: u32,
    i: u32,
    tick: u64,
    ready: u64,
    finish: u64,
    response: u64,
) -> usize
    requires { at + 106 ≤ length out.old }
    ensures { PutLine 106 out.old at (run_fields p i tick ready finish response) out.new result }
{
    let a = text::put_field(out, at, p, 32);
    let b = text::put_field(out, a, i, 32);
    let c = text::put_wide_field(out, b, tick, 32);
    let d = text::put_wide_field(out, c, ready, 32);
    let e = text::put_wide_field(out, d, finish, 32);
    text::put_wide_field(out, e, response, 10)
}

// The line of a refusal with this number and place.
pub fn put_refused(out: &mut [u8], number: u32, place: usize) -> usize
    requires { 64 ≤ length out.old }
    ensures { PutLine 64 out.old 0 (refusal_text number place) out.new result }
{
    let a = text::put_bytes(out, 0, b"refused ");
    let b = text::put_field(out, a, number, 32);
    let c = text::put_bytes(out, b, b"at ");
    text::put_wide_field(out, c, place as u64, 10)
}

// The line of a refusal.
pub fn put_refusal(out: &mut [u8], r: Refusal) -> usize
    requires { 64 ≤ length out.old }
    ensures { PutLine 64 out.old 0 (refusal_text (number_of r.reason) r.place) out.new result }
{
    put_refused(out, r.reason.number(), r.place)
}

// The lines of all tasks.
fn put_tasks(out: &mut [u8], from: usize, s: TaskSet, kept: &[u32], worst: &[u32]) -> usize
    requires { (from + 2464 ≤ length out.old) × (s.count ≤ 32) × (s.count ≤ length kept.now) × (s.count ≤ length worst.now) }
    ensures { PutLine 2464 out.old from (lines (choice_line (view_of s) kept.now worst.now) s.count) out.new result }
{
    let mut at = from;
    for i in 0..s.count {
        at = put_task(out, at, i as u32, s.tasks[i], kept[i], worst[i]);
    }
    at
}

// The last line of a choice: `high only` of one of the high tasks alone, `fits` of an ordinary one.
fn put_last(out: &mut [u8], at: usize, high_only: bool) -> usize
    requires { at + 10 ≤ length out.old }
    ensures { PutLine 10 out.old at (last_line (scope_in high_only)) out.new result }
{
    if high_only {
        return text::put_bytes(out, at, b"high only\n");
    }
    text::put_bytes(out, at, b"fits\n")
}

// What the first program prints for a choice, an ordinary one or one of the high tasks alone.
pub fn put_choice(out: &mut [u8], s: TaskSet, kept: &[u32], worst: &[u32], high_only: bool) -> usize
    requires { (2560 ≤ length out.old) × (s.count ≤ 32) × (s.count ≤ length kept.now) × (s.count ≤ length worst.now) }
    ensures { PutLine 2560 out.old 0 (choice_text (scope_in high_only) (view_of s) kept.now worst.now) out.new result }
{
    let a = text::put_bytes(out, 0, b"task period jitter cost deadline keep worst\n");
    let b = put_tasks(out, a, s, kept, worst);
    put_last(out, b, high_only)
}

// The lines of all releases.
fn put_jobs(
    out: &mut [u8],
    from: usize,
    n: usize,
    task: &[u32],
    tick: &[u64],
    ready: &[u64],
    finish: &[u64],
) -> usize
    requires { (from + 108544 ≤ length out.old)
        × (n ≤ 1024)
        × (n ≤ length task.now)
        × (n ≤ length tick.now)
        × (n ≤ length ready.now)
        × (n ≤ length finish.now) }
    ensures { PutLine 108544 out.old from (lines (run_line task.now tick.now ready.now finish.now) n) out.new result }
{
    let mut at = from;
    for p in 0..n {
        at = put_job(
            out,
            at,
            p as u32,
            task[p],
            tick[p],
            ready[p],
            finish[p],
            finish[p].saturating_sub(tick[p]),
        );
    }
    at
}

// What the second program prints for a run of n releases.
pub fn put_run(
    out: &mut [u8],
    n: usize,
    task: &[u32],
    tick: &[u64],
    ready: &[u64],
    finish: &[u64],
) -> usize
    requires { (108608 ≤ length out.old) × (n ≤ 1024) × (n ≤ length task.now) × (n ≤ length tick.now) × (n ≤ length ready.now) × (n ≤ length finish.now) }
    ensures { PutLine 108608 out.old 0 (run_text n task.now tick.now ready.now finish.now) out.new result }
{
    let a = text::put_bytes(out, 0, b"job task release ready finish response\n");
    put_jobs(out, a, n, task, tick, ready, finish)
}
