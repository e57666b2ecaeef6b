// Runs the stored cases of the last 256 jobs, and prints a line for each. In it, each after a mark: the answer of an opening and each job that was refused, the
// same of a second opening, the slots of the lent window that changed, what is shown of one task, and the answer of a display of all tasks with every slot
// of its lent columns.
#![tactic(auto)]

ghost use Rattle.std.specs.Prelude.{◌≡◌, not, ◌++◌, eqb, get_or};
ghost use Rattle.model.specs.Calls.{column_after};
ghost use Rattle.taskset.specs.TaskSet.{view_of};
ghost use Rattle.cases.specs.Cases.{SetIn};
ghost use Rattle.monitor.specs.Layout.{tasks_in, deadline_in, held_in};
ghost use Rattle.monitor.specs.MonitorCalls.{job_after, all_refusal, jobs_column, late_column, largest_column};
ghost use Rattle.monitor.specs.AfterAnyCalls.{slots_after_all};
ghost use Rattle.vectors_monitor.specs.CaseCalls.{open_calls, job_calls, part_calls};

use monitor::Tally;
use refusal::Refusal;
use taskset::TaskSet;

// Prints what is shown of a task.
fn print_shown(answer: Result<Tally, Refusal>) {
    match answer {
        Ok(t) => {
            cases::print_named(b"shows", u64::from(t.jobs));
            cases::print_number(u64::from(t.late));
            cases::print_number(t.largest);
        }
        Err(r) => cases::print_refusal(r),
    }
}

// Prints the place of a job in its column.
fn print_job(i: usize) {
    cases::print_comma();
    cases::print_named(b"job", i as u64);
}

// Prints a refused job; of one that was taken, where that is asked for, what is then shown of its task.
fn print_taken(answer: Result<(), Refusal>, i: usize, window: &[u64], task: usize, each: bool) {
    match answer {
        Ok(()) => {
            if each {
                print_job(i);
                print_shown(monitor::show_task(window, task));
            }
        }
        Err(r) => {
            print_job(i);
            cases::print_refusal(r);
        }
    }
}

// Brings a job to the window, and prints what came of it.
fn take_call(window: &mut [u64], i: usize, task: u32, response: u64, each: bool)
    ensures { window.new ≡ job_after window.old (record { task = task; response = response }) }
{
    let of = cases::index(task);
    let answer = monitor::take_job(window, of, response);
    print_taken(answer, i, window, of, each);
}

// Brings the jobs of two columns to the window.
fn take_calls(window: &mut [u64], task: &[u32], response: &[u64], each: bool)
    ensures { window.new ≡ slots_after_all window.old (job_calls task.now response.now) }
{
    for i in 0..task.len().min(response.len()) {
        take_call(window, i, task[i], response[i], each);
    }
}

// Opens the window, where that is asked for, and prints the answer.
fn open_call(window: &mut [u64], opened: bool, set: TaskSet)
    ensures { window.new ≡ slots_after_all window.old (open_calls opened (view_of set)) }
{
    if opened {
        cases::print_checked(monitor::open_window(set, window));
    }
}

// A part of a case: whether the window is opened first, the sheet for that, and whether each job's task is shown after it.
#[derive(Clone, Copy)]
struct Part {
    opened: bool,
    set: TaskSet,
    each: bool,
}

// The part in a block of numbers.
fn part_in(head: &[u32; 168]) -> Part
    ensures opened_value { result.opened ≡ not (eqb (get_or head.now 0 0) 0) }
    ensures set_in { SetIn head.now result.set }
    ensures each_value { result.each ≡ not (eqb (get_or head.now 2 0) 0) }
{
    Part {
        opened: head[0] != 0,
        set: cases::task_set(head),
        each: head[2] != 0,
    }
}

// Makes the calls of a part with the jobs of two columns.
fn part_calls(window: &mut [u64], part: Part, task: &[u32], response: &[u64])
    ensures { window.new
        ≡ slots_after_all window.old (part_calls part.opened (view_of part.set) task.now response.now) }
{
    open_call(window, part.opened, part.set);
    take_calls(window, task, response, part.each);
    cases::print_half();
}

// Prints a slot after a comma: its place, and what it holds.
fn print_slot(i: usize, v: u64) {
    cases::print_comma();
    cases::print_number(i as u64);
    cases::print_number(v);
}

// Prints the slots in which two windows differ, with what the second holds.
fn print_changes(before: &[u64], after: &[u64]) {
    for i in 0..before.len().min(after.len()) {
        if before[i] != after[i] {
            print_slot(i, after[i]);
        }
    }
    cases::print_half();
}

// Prints the slots of a column of responses after a comma.
fn print_responses(column: &[u64]) {
    cases::print_comma();
    for v in column {
        cases::print_number(*v);
    }
}

// Shows one task.
fn show_call(window: &[u64], task: usize) {
    print_shown(monitor::show_task(window, task));
    cases::print_half();
}

// Shows all tasks, and prints the answer and the columns lent.
fn all_call(window: &[u64], jobs: &mut [u32], late: &mut [u32], largest: &mut [u64])
    ensures jobs_after { jobs.new
        ≡ column_after (all_refusal window.now jobs.old late.old largest.old)
        (jobs_column (tasks_in window.now) (held_in window.now)) jobs.old }
    ensures late_after { late.new
        ≡ column_after (all_refusal window.now jobs.old late.old largest.old)
        (late_column (tasks_in window.now) (deadline_in window.now) (held_in window.now)) late.old }
    ensures largest_after { largest.new
        ≡ column_after (all_refusal window.now jobs.old late.old largest.old)
        (largest_column (tasks_in window.now) (held_in window.now)) largest.old }
{
    cases::print_checked(monitor::show_all(window, jobs, late, largest));
    cases::print_column(jobs);
    cases::print_column(late);
    print_responses(largest);
}

// Shows one task, then all, with the columns of the case.
fn display(window: &[u64], task: usize) {
    let mut jobs = [0u32; 64];
    let jobs_lent = cases::read_column(&mut jobs);
    let mut late = [0u32; 64];
    let late_lent = cases::read_column(&mut late);
    let mut largest = [0u64; 64];
    let largest_lent = cases::read_ticks(&mut largest);
    show_call(window, task);
    all_call(
        window,
        &mut jobs[..jobs_lent],
        &mut late[..late_lent],
        &mut largest[..largest_lent],
    );
}

// Makes the calls of both parts, and prints what changed and what is shown.
fn case_calls(
    before: &[u64],
    window: &mut [u64],
    first: Part,
    task: &[u32],
    response: &[u64],
    second: Part,
    task2: &[u32],
    response2: &[u64],
    shown: usize,
)
    ensures { window.new
        ≡ slots_after_all window.old
        (part_calls first.opened (view_of first.set) task.now response.now
        ++ part_calls second.opened (view_of second.set) task2.now response2.now) }
{
    part_calls(window, first, task, response);
    part_calls(window, second, task2, response2);
    print_changes(before, window);
    display(window, shown);
}

// A case: whether the window is opened first, the task that is shown, whether each job's task is shown after it, and the sheet; then the slots of the window,
// tasks and responses; then the numbers of a second part, tasks and responses; then the columns of jobs, late jobs and largest responses.
fn window_case(head: &[u32; 168]) {
    let first = part_in(head);
    let mut window = [0u64; 1056];
    let slots = cases::read_ticks(&mut window);
    let before = window;
    let mut task = [0u32; 1056];
    let tasks = cases::read_column(&mut task);
    let mut response = [0u64; 1056];
    let responses = cases::read_ticks(&mut response);
    let mut next = [0u32; 168];
    cases::read_column(&mut next);
    let second = part_in(&next);
    let mut task2 = [0u32; 1056];
    let tasks2 = cases::read_column(&mut task2);
    let mut response2 = [0u64; 1056];
    let responses2 = cases::read_ticks(&mut response2);
    case_calls(
        &before[..slots],
        &mut window[..slots],
        first,
        &task[..tasks],
        &response[..responses],
        second,
        &task2[..tasks2],
        &response2[..responses2],
        cases::index(head[1]),
    );
}

// Case after case up to the end of the input.
fn main() {
    cases::run_cases(window_case);
}
