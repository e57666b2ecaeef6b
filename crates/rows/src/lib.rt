// A sheet with its choice, and a board, as rows of numbers for C: how they are read and written.
#![tactic(auto)]

ghost use Rattle.std.specs.Prelude.{Option, ◌≡◌, ◌+◌, ◌-◌, ◌*◌, ◌/◌, ◌%◌, ◌≤◌, ◌<◌, [], ◌∷◌, ◌++◌, length, get_or, take, drop, replicate};
ghost use Rattle.std.proofs.Math.Option.{some, none};
ghost use Rattle.std.proofs.lemmas.List.Edits.{sets};
ghost use Rattle.model.specs.Series as model_series;
ghost use Rattle.model.specs.Choice.{scope_in};
ghost use Rattle.model.specs.Tasks as model_tasks;
ghost use Rattle.model.proofs.FrameLaws.{Ruled};
ghost use Rattle.taskset.specs.TaskSet.{no_task, entry_of};
ghost use Rattle.frame.specs.FrameView.{no_window, windows_of, frame_of, framed_of};
ghost use Rattle.plan.specs.PlanView.{plan_view, board_view};
ghost use Rattle.rows.specs.Rows as rows;

use frame::{Frame, Window};
use numbers::number_at;
use plan::{Board, Plan};
use taskset::{Task, TaskSet};

// The 32 numbers of a row from a place on.
fn numbers_from(row: &[u32], start: usize) -> [u32; 32]
    requires { start ≤ 195 }
    ensures { result ≡ model_series.table (λ i. get_or row.now (start + i) 0) 32 }
{
    let mut column: [u32; 32] = [0; 32];
    for i in 0..32 {
        let x = number_at(row, start + i);
        column[i] = x;
    }
    column
}

// The sheet and its choice that a row of 227 numbers holds: the numbers of 32 tasks, count, charge, which of the two choices, 32 kept jitters, 32 worst values. Numbers
// past the end of the row count as 0.
pub fn plan_from(row: &[u32]) -> Plan
    ensures { result ≡ rows.plan_from row.now }
{
    let count = number_at(row, 160);
    let charge = number_at(row, 161);
    let scope = number_at(row, 162);
    let tasks = interface::sheet_from(row, count, (charge % 256) as u8);
    let keep = numbers_from(row, 163);
    let worst = numbers_from(row, 195);
    Plan {
        tasks,
        keep,
        worst,
        partial: scope != 0,
    }
}

// Window k in the row of a board.
fn window_in(row: &[u32], k: usize) -> Window
    requires { k < 16 }
    ensures { result ≡ rows.window_in row.now k }
{
    let first = number_at(row, 230 + 2 * k);
    let length = number_at(row, 231 + 2 * k);
    Window { first, length }
}

// The windows in the row of a board.
fn windows_in(row: &[u32]) -> [Window; 16]
    ensures { result ≡ model_series.table (rows.window_in row.now) 16 }
{
    let none = Window {
        first: 0,
        length: 0,
    };
    let mut windows = [none; 16];
    for k in 0..16 {
        let w = window_in(row, k);
        windows[k] = w;
    }
    windows
}

// The frame in the row of a board: none where its first number is 0.
fn frame_in(row: &[u32]) -> Option<Frame>
    ensures { result ≡ rows.frame_in row.now }
{
    if number_at(row, 227) == 0 {
        return None;
    }
    let ticks = number_at(row, 228);
    let count = number_at(row, 229);
    let windows = windows_in(row);
    Some(Frame {
        ticks,
        count: count as usize,
        windows,
    })
}

// The board that a row of 264 numbers holds: the sheet and its choice, the frame, and the tick of the last commit. Numbers past the end of the row count as 0.
pub fn board_from(row: &[u32]) -> Board
    ensures { result ≡ rows.board_from row.now }
{
    let plan = plan_from(row);
    let frame = frame_in(row);
    let low = number_at(row, 262);
    let high = number_at(row, 263);
    Board {
        plan,
        frame,
        last: u64::from(low) + u64::from(high) * 4294967296,
    }
}

// The sheet with entries past the count 0.
fn cleaned(s: TaskSet) -> TaskSet
    requires { s.count ≤ 32 }
    ensures { result.tasks ≡ model_series.table (entry_of s) s.count ++ replicate (32 - s.count) no_task }
{
    let none = Task {
        period: 0,
        jitter: 0,
        cost: 0,
        deadline: 0,
        low: false,
    };
    let mut tasks = [none; 32];
    let count = s.count;
    for i in 0..count {
        let t = s.tasks[i];
        tasks[i] = t;
    }
    TaskSet {
        tasks,
        count,
        charge: s.charge,
    }
}

// A number of a column, 0 from the count on.
fn number_below(column: &[u32], count: usize, i: usize) -> u32
    ensures { result ≡ get_or (take count column.now) i 0 }
{
    if i < count {
        return number_at(column, i);
    }
    0
}

// Writes 32 numbers of a column at a place of a row, 0 from the count on.
fn put_numbers(column: &[u32], count: usize, row: &mut [u32], start: usize)
    requires { (count ≤ 32) × (start ≤ 195) × (start + 32 ≤ length row.old) }
    ensures { row.new ≡ sets row.old start (rows.padded 32 (take count column.now)) }
{
    for i in 0..32 {
        let x = number_below(column, count, i);
        row[start + i] = x;
    }
}

// Which of the two choices, as a number.
fn scope_number(partial: bool) -> u32
    ensures { result ≡ rows.scope_number (scope_in partial) }
{
    if partial { 1 } else { 0 }
}

// Writes count, charge and which of the two choices.
fn put_head(count: usize, charge: u8, partial: bool, row: &mut [u32])
    requires { (count ≤ 32) × (163 ≤ length row.old) }
    ensures { row.new ≡ sets row.old 160 (count ∷ charge ∷ rows.scope_number (scope_in partial) ∷ []) }
{
    row[160] = count as u32;
    row[161] = u32::from(charge);
    row[162] = scope_number(partial);
}

// Writes a sheet with its choice as 227 numbers. What stands past the count of the sheet is written as 0, and the rest of the row is kept.
pub fn put_plan(p: Plan, row: &mut [u32])
    requires { (rows.offer_numbers ≤ length row.old) × (p.tasks.count ≤ 32) }
    ensures { (f : Option Frame) → row.new ≡ rows.plan_row (plan_view p f) ++ drop rows.offer_numbers row.old }
{
    let tasks = p.tasks;
    let count = tasks.count;
    let sheet = cleaned(tasks);
    interface::put_sheet(sheet, row);
    put_head(count, tasks.charge, p.partial, row);
    let keep = p.keep;
    put_numbers(&keep, count, row, 163);
    let worst = p.worst;
    put_numbers(&worst, count, row, 195);
}

// A window of a frame, 0 from the count on.
fn window_below(f: Frame, count: usize, k: usize) -> Window
    requires { count ≤ 16 }
    ensures { result ≡ get_or (take count f.windows) k no_window }
{
    if k < count {
        return f.windows[k];
    }
    Window {
        first: 0,
        length: 0,
    }
}

// Writes first tick and length of 16 windows, 0 from the count on.
fn put_windows(f: Frame, count: usize, row: &mut [u32])
    requires { (count ≤ 16) × (262 ≤ length row.old) }
    ensures { row.new ≡ sets row.old 230 (rows.padded 32 (rows.windows_row (windows_of f) count)) }
{
    for k in 0..16 {
        let w = window_below(f, count, k);
        row[230 + 2 * k] = w.first;
        row[231 + 2 * k] = w.length;
    }
}

// Writes 35 numbers for no frame: all are 0.
fn put_none(row: &mut [u32])
    requires { 262 ≤ length row.old }
    ensures { row.new ≡ sets row.old 227 (rows.frame_row none) }
{
    for i in 0..35 {
        row[227 + i] = 0;
    }
}

// Writes a frame as 35 numbers: a 1, its ticks, its count, and the windows.
fn put_some(f: Frame, row: &mut [u32])
    requires { (262 ≤ length row.old) × (f.count ≤ 16) }
    ensures { row.new ≡ sets row.old 227 (rows.frame_row (some (windows_of f))) }
{
    row[227] = 1;
    row[228] = f.ticks;
    row[229] = f.count as u32;
    put_windows(f, f.count, row);
}

// Writes a frame as 35 numbers. All are 0 where there is none.
fn put_frame(f: Option<Frame>, row: &mut [u32])
    requires { (262 ≤ length row.old) × Ruled (frame_of f) }
    ensures { row.new ≡ sets row.old 227 (rows.frame_row (frame_of f)) }
{
    match f {
        None => put_none(row),
        Some(frame) => put_some(frame, row),
    }
}

// Writes the tick of the last commit, its low 32 bits first.
fn put_last(last: u64, row: &mut [u32])
    requires { 264 ≤ length row.old }
    ensures { row.new ≡ sets row.old 262 (last % 4294967296 ∷ last / 4294967296 ∷ []) }
{
    row[262] = (last % 4294967296) as u32;
    row[263] = (last / 4294967296) as u32;
}

// Writes a board as 264 numbers: the sheet and its choice, the frame, and the tick of the last commit. What stands past a count is written as 0, and the rest of the row
// is kept.
pub fn put_board(b: Board, row: &mut [u32])
    requires { (rows.board_numbers ≤ length row.old) × model_tasks.Valid (framed_of b.plan.tasks b.frame) }
    ensures { row.new ≡ rows.board_row (board_view b) ++ drop rows.board_numbers row.old }
{
    let plan = b.plan;
    put_plan(plan, row);
    let frame = b.frame;
    put_frame(frame, row);
    put_last(b.last, row);
}
