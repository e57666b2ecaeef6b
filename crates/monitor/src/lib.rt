// The last 256 jobs of a run (document 02, R-6): per task their number, how many were late, and the largest response.
// The window is lent: 546 slots that only these calls change. Whatever the slots hold, a call answers by the definitions or refuses.
// Slot 0 is the number of tasks, slot 1 the count of jobs; from slot 2 on stand the deadlines of 32 tasks, from 34 on the tasks of 256 jobs, a ring, and from 290 on
// their responses.
#![tactic(auto)]

ghost use Rattle.std.specs.Prelude.{◌≡◌, ◌+◌, ◌≤◌, ◌<◌, max, ◌++◌, ltb, length, drop};
ghost use Rattle.model.specs.Limits.{max_tasks};
ghost use Rattle.model.specs.Series.{on, table};
ghost use Rattle.model.specs.Checks.{check_slots, refusal_of};
ghost use Rattle.model.specs.Calls.{column_after};
ghost use Rattle.model.specs.LastJobs.{shown_of, window_jobs};
ghost use Rattle.refusal.specs.Refusal.{refusal_in};
ghost use Rattle.taskset.specs.TaskSet.{view_of};
ghost use Rattle.monitor.specs.Layout.{window_slots, tasks_in, deadline_in, job_in, used_in, held_in, counted, opened_on};
ghost use Rattle.monitor.specs.MonitorCalls.{
  open_inputs,
  open_after,
  check_window,
  check_task_in,
  job_after,
  show_call,
  all_refusal,
  jobs_column,
  late_column,
  largest_column,
  tallied,
  tallied_with,
  slot_with,
  columns_lent,
  Countable,
  shown_in,
};

use refusal::{Reason, Refusal};
use taskset::TaskSet;

// The most tasks that a window has.
const TASKS: usize = 32;

// The jobs that it holds.
const JOBS: usize = 256;

// Its slots.
const SLOTS: usize = 546;

// The first slot of the deadlines.
const DEADLINES: usize = 2;

// The first slot of the tasks of the jobs.
const TASKS_OF: usize = 34;

// The first slot of their responses.
const RESPONSES: usize = 290;

// What is counted of one task: its jobs, the late ones among them, and the largest response.
#[derive(Clone, Copy, Debug, PartialEq, Eq)]
pub struct Tally {
    pub jobs: u32,
    pub late: u32,
    pub largest: u64,
}

// Writes a window without a job: the number of tasks of a sheet, and their deadlines.
fn put_deadlines(s: TaskSet, window: &mut [u64])
    requires { (s.count ≤ max_tasks) × (window_slots ≤ length window.old) }
    ensures { window.new ≡ opened_on (view_of s) ++ drop (2 + s.count) window.old }
{
    let count = s.count;
    window[0] = count as u64;
    window[1] = 0;
    for i in 0..count {
        let t = s.tasks[i];
        window[DEADLINES + i] = t.deadline as u64;
    }
}

// Opens a window on a sheet: no job. It checks the sheet (5, 4, then 6 and 17 by task), then the window's slots (13).
pub fn open_window(s: TaskSet, window: &mut [u64]) -> Result<(), Refusal>
    ensures code { refusal_in result ≡ refusal_of (open_inputs (view_of s) window.old) }
    ensures slots { window.new ≡ open_after (view_of s) window.old }
{
    taskset::check(s)?;
    if window.len() < SLOTS {
        return Err(Refusal {
            reason: Reason::ShortSlice,
            place: SLOTS,
        });
    }
    put_deadlines(s, window);
    Ok(())
}

// The check of a lent window: 13 where it is too short, then 5 and 4 of its number of tasks.
fn check_window(window: &[u64]) -> Result<(), Refusal>
    ensures { refusal_in result ≡ check_window window.now }
{
    if window.len() < SLOTS {
        return Err(Refusal {
            reason: Reason::ShortSlice,
            place: SLOTS,
        });
    }
    let tasks = window[0];
    if tasks == 0 {
        return Err(Refusal {
            reason: Reason::NoTask,
            place: 0,
        });
    }
    if tasks > TASKS as u64 {
        return Err(Refusal {
            reason: Reason::TooManyTasks,
            place: TASKS,
        });
    }
    Ok(())
}

// The check of a lent window and of a task of it: 14 where there is no such task.
fn check_task(window: &[u64], task: usize) -> Result<(), Refusal>
    ensures { refusal_in result ≡ check_task_in window.now task }
{
    check_window(window)?;
    if window[0] <= task as u64 {
        return Err(Refusal {
            reason: Reason::NoSuchTask,
            place: task,
        });
    }
    Ok(())
}

// The count of jobs after one more.
fn counted_on(count: u64) -> u64
    ensures { result ≡ counted count }
{
    let jobs = JOBS as u64;
    if count < jobs {
        return count + 1;
    }
    jobs + (count % jobs + 1) % jobs
}

// Takes one finished job: it goes to the next place of the ring, that of the oldest job once the ring is full.
pub fn take_job(window: &mut [u64], task: usize, response: u64) -> Result<(), Refusal>
    ensures code { refusal_in result ≡ check_task_in window.old task }
    ensures slots { window.new ≡ job_after window.old (record { task = task; response = response }) }
{
    check_task(window, task)?;
    let count = window[1];
    let place = (count % JOBS as u64) as usize;
    window[TASKS_OF + place] = task as u64;
    window[RESPONSES + place] = response;
    window[1] = counted_on(count);
    Ok(())
}

// How many places of the ring are in use.
fn used_in(window: &[u64]) -> usize
    requires { window_slots ≤ length window.now }
    ensures { result ≡ used_in window.now }
{
    window[1].min(JOBS as u64) as usize
}

// The number of late jobs after one with this response.
fn late_with(late: u32, deadline: u64, response: u64) -> u32
    requires { late < 4294967295 }
    ensures { result ≡ late + on (ltb deadline response) 1 }
{
    if deadline < response {
        return late + 1;
    }
    late
}

// A tally with one more job of its task.
fn with_one(t: Tally, deadline: u64, response: u64) -> Tally
    requires { (t.jobs < 4294967295) × (t.late < 4294967295) }
    ensures { tallied result ≡ record { jobs = t.jobs + 1; late = t.late + on (ltb deadline response) 1; largest = max t.largest response } }
{
    Tally {
        jobs: t.jobs + 1,
        late: late_with(t.late, deadline, response),
        largest: t.largest.max(response),
    }
}

// A tally of one task with the next job, of whichever task that is.
fn with_next(t: Tally, task: u64, deadline: u64, of: u64, response: u64) -> Tally
    requires { (t.jobs < 4294967295) × (t.late < 4294967295) }
    ensures { tallied result ≡ tallied_with (tallied t) task deadline (record { task = of; response = response }) }
{
    if of == task {
        return with_one(t, deadline, response);
    }
    t
}

// The jobs, the late ones and the largest response of one task among the jobs held: one look at each place in use.
fn tally_of(window: &[u64], task: usize) -> Tally
    requires { (window_slots ≤ length window.now) × (task < max_tasks) }
    ensures { tallied result ≡ shown_of task (deadline_in window.now task) (held_in window.now) }
{
    let of = task as u64;
    let deadline = window[DEADLINES + task];
    let used = used_in(window);
    let mut t = Tally {
        jobs: 0,
        late: 0,
        largest: 0,
    };
    for k in 0..used {
        t = with_next(t, of, deadline, window[TASKS_OF + k], window[RESPONSES + k]);
    }
    t
}

// Shows one task: its jobs among the last 256, how many of them were late, and their largest response, 0 with no job.
pub fn show_task(window: &[u64], task: usize) -> Result<Tally, Refusal>
    ensures { shown_in result ≡ show_call window.now task }
{
    check_task(window, task)?;
    Ok(tally_of(window, task))
}

// Sets the slots of n tasks to 0 in three columns.
fn clear(n: usize, jobs: &mut [u32], late: &mut [u32], largest: &mut [u64])
    requires { (n ≤ length jobs.old) × (n ≤ length late.old) × (n ≤ length largest.old) }
    ensures jobs_after { jobs.new ≡ table (λ i. 0) n ++ drop n jobs.old }
    ensures late_after { late.new ≡ table (λ i. 0) n ++ drop n late.old }
    ensures largest_after { largest.new ≡ table (λ i. 0) n ++ drop n largest.old }
{
    jobs[..n].fill(0);
    late[..n].fill(0);
    largest[..n].fill(0);
}

// Counts the job at a place of the ring in the slots of its task, if that is one of the n tasks.
fn count_job(
    window: &[u64],
    n: usize,
    k: usize,
    jobs: &mut [u32],
    late: &mut [u32],
    largest: &mut [u64],
)
    requires { (window_slots ≤ length window.now)
        × (n ≤ max_tasks)
        × (k < window_jobs)
        × Countable n jobs.old
        × Countable n late.old
        × (n ≤ length largest.old) }
    ensures jobs_after { jobs.new ≡ slot_with n (job_in window.now k).task (λ x. x + 1) jobs.old }
    ensures late_after { late.new
        ≡ slot_with n (job_in window.now k).task
        (λ x. x + on (ltb (deadline_in window.now (job_in window.now k).task) (job_in window.now k).response) 1)
        late.old }
    ensures largest_after { largest.new
        ≡ slot_with n (job_in window.now k).task (λ x. max x (job_in window.now k).response) largest.old }
{
    let of = window[TASKS_OF + k];
    if n as u64 <= of {
        return;
    }
    let i = of as usize;
    let t = Tally {
        jobs: jobs[i],
        late: late[i],
        largest: largest[i],
    };
    let next = with_one(t, window[DEADLINES + i], window[RESPONSES + k]);
    jobs[i] = next.jobs;
    late[i] = next.late;
    largest[i] = next.largest;
}

// Counts the jobs held into the columns of n tasks: one look at each place in use.
fn count_all(window: &[u64], n: usize, jobs: &mut [u32], late: &mut [u32], largest: &mut [u64])
    requires { (window_slots ≤ length window.now)
        × (n ≤ max_tasks)
        × (n ≤ length jobs.old)
        × (n ≤ length late.old)
        × (n ≤ length largest.old) }
    ensures jobs_after { jobs.new ≡ jobs_column n (held_in window.now) ++ drop n jobs.old }
    ensures late_after { late.new ≡ late_column n (deadline_in window.now) (held_in window.now) ++ drop n late.old }
    ensures largest_after { largest.new ≡ largest_column n (held_in window.now) ++ drop n largest.old }
{
    clear(n, jobs, late, largest);
    let used = used_in(window);
    for k in 0..used {
        count_job(window, n, k, jobs, late, largest);
    }
}

// The slots of three columns of n tasks: 13 at the first that is too short.
fn check_columns(n: usize, jobs: usize, late: usize, largest: usize) -> Result<(), Refusal>
    ensures { refusal_in result ≡ check_slots (columns_lent n jobs late largest) }
{
    if jobs < n {
        return Err(Refusal {
            reason: Reason::ShortSlice,
            place: n,
        });
    }
    if late < n {
        return Err(Refusal {
            reason: Reason::ShortSlice,
            place: n,
        });
    }
    if largest < n {
        return Err(Refusal {
            reason: Reason::ShortSlice,
            place: n,
        });
    }
    Ok(())
}

// Shows all tasks: a slot for each in three columns. A refusal leaves them.
pub fn show_all(
    window: &[u64],
    jobs: &mut [u32],
    late: &mut [u32],
    largest: &mut [u64],
) -> Result<(), Refusal>
    ensures code { refusal_in result ≡ all_refusal window.now jobs.old late.old largest.old }
    ensures jobs_shown { jobs.new
        ≡ column_after (all_refusal window.now jobs.old late.old largest.old)
        (jobs_column (tasks_in window.now) (held_in window.now)) jobs.old }
    ensures late_shown { late.new
        ≡ column_after (all_refusal window.now jobs.old late.old largest.old)
        (late_column (tasks_in window.now) (deadline_in window.now) (held_in window.now)) late.old }
    ensures largest_shown { largest.new
        ≡ column_after (all_refusal window.now jobs.old late.old largest.old)
        (largest_column (tasks_in window.now) (held_in window.now)) largest.old }
{
    check_window(window)?;
    let n = window[0] as usize;
    check_columns(n, jobs.len(), late.len(), largest.len())?;
    count_all(window, n, jobs, late, largest);
    Ok(())
}
