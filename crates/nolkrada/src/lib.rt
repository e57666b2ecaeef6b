// The calls for C: numbers and slices in, a code back. A slice is passed as a pointer and a length.
// Every call returns 0 where it answered, else number · 2^32 + place of its refusal, and a refusal leaves every lent slot as it was.
#![tactic(auto)]

ghost use Rattle.std.specs.Prelude.{◌≡◌, ℕ};
ghost use Rattle.model.specs.Checks.{refusal_of};
ghost use Rattle.model.specs.Choice.{choice, column};
ghost use Rattle.model.specs.Ready.{ready_list};
ghost use Rattle.model.specs.Run.{finish_list};
ghost use Rattle.model.specs.Calls.{
  arrival_call,
  verdict_call,
  trace_call,
  kept_column,
  worst_column,
  ready_inputs,
  run_inputs,
  releases_of,
  column_after,
};
ghost use Rattle.taskset.specs.TaskSet.{view_of};
ghost use Rattle.fileformat.specs.File.{decode};
ghost use Rattle.fileformat.specs.FileCalls.{read_count};
ghost use Rattle.refusal.specs.Refusal.{answer_in};
ghost use Rattle.monitor.specs.Layout.{tasks_in, deadline_in, held_in};
ghost use Rattle.monitor.specs.MonitorCalls.{open_inputs, open_after, check_task_in, job_after, show_call, all_refusal, jobs_column, late_column, largest_column};
ghost use Rattle.frame.specs.FrameView.{frame_from};
ghost use Rattle.admission.specs.Offers.{ask_call};
ghost use Rattle.admission.specs.Boards.{open_call, commit_call};
ghost use Rattle.plan.specs.PlanView.{task_entry, board_view};
ghost use Rattle.board.specs.BoardCalls.{commit_of};
ghost use Rattle.rows.specs.Rows.{offer_numbers, board_numbers, plan_from, board_from, plan_row, board_row};
ghost use Rattle.interface.specs.Interface.{task_at, sheet_from, framed_from, code_of, code_in, as_words, Ends, one_word, scope_word, verdict_words, trace_words, shown_words};
ghost use Rattle.nolkrada.specs.Files.{read_within, read_answer, ReadEnds, write_answer, WriteEnds};
ghost use Rattle.nolkrada.specs.Texts.{load_answer, LoadEnds};
ghost use Rattle.nolkrada.specs.Runs.{jump_answer, choice_answer, ColumnsEnd};
ghost use Rattle.enumeration.specs.SmallCalls.{count_call};
ghost use Rattle.smallcalls.specs.SmallWords.{small_answer, SmallWordsEnd, WordsEnd};

use choice::Extent;
use frame::frame_from;
use interface::{
    code_of, put_sheet, put_words, refusal_code, sheet_from, short_code, slots_code, task_at,
};
use refusal::{Reason, Refusal};
use releases::Releases;
use verdict::Verdict;

// Arrival count of one task in t ticks, with kept jitters: one word.
#[unsafe(no_mangle)]
pub extern "C" fn nolkrada_arrival_count(
    sheet: &[u32],
    count: u32,
    charge: u8,
    task: u32,
    kept: &[u32],
    t: u32,
    answer: &mut [u64],
) -> u64
    ensures { Ends 1 (as_words one_word (arrival_call (view_of (sheet_from sheet.now count charge)) task kept.now t))
        answer.old result answer.new }
{
    let s = sheet_from(sheet, count, charge);
    match demand::arrival_count(s, task as usize, kept, t) {
        Err(r) => slots_code(r, 1, answer.len()),
        Ok(n) => put_words(answer, &[n]),
    }
}

// The verdict of one task, with kept jitters, on a sheet with a frame or without, and the number of its evaluations: four words.
#[unsafe(no_mangle)]
pub extern "C" fn nolkrada_verdict(
    sheet: &[u32],
    count: u32,
    charge: u8,
    frame: &[u32],
    task: u32,
    kept: &[u32],
    answer: &mut [u64],
) -> u64
    ensures { Ends 4 (as_words verdict_words (verdict_call (framed_from sheet.now count charge frame.now) task kept.now))
        answer.old result answer.new }
{
    let s = sheet_from(sheet, count, charge);
    let f = frame_from(frame);
    match verdict::verdict_of(s, f, task as usize, kept) {
        Err(r) => slots_code(r, 4, answer.len()),
        Ok(Verdict::Horizon { q, evaluations }) => {
            put_words(answer, &[0, u64::from(q), 0, evaluations])
        }
        Ok(
            Verdict::Late {
                q,
                bound,
                evaluations,
            },
        ) => put_words(answer, &[1, u64::from(q), u64::from(bound), evaluations]),
        Ok(
            Verdict::Fits {
                worst,
                q,
                evaluations,
            },
        ) => put_words(answer, &[2, u64::from(q), u64::from(worst), evaluations]),
    }
}

// The choice of kept jitters: a kept jitter and a worst value for each task, and one word: which of the two choices it is.
#[unsafe(no_mangle)]
pub extern "C" fn nolkrada_choice(
    sheet: &[u32],
    count: u32,
    charge: u8,
    frame: &[u32],
    kept: &mut [u32],
    worst: &mut [u32],
    answer: &mut [u64],
) -> u64
    ensures { ColumnsEnd scope_word (choice_answer sheet.now count charge frame.now kept.old worst.old answer.old)
        (kept_column (choice (framed_from sheet.now count charge frame.now)))
        (worst_column (choice (framed_from sheet.now count charge frame.now)))
        kept.old worst.old answer.old result kept.new worst.new answer.new }
{
    let s = sheet_from(sheet, count, charge);
    let f = frame_from(frame);
    if answer.len() < 1 {
        return match choice::check_room(s, f, kept.len(), worst.len()) {
            Err(r) => slots_code(r, 1, answer.len()),
            Ok(()) => short_code(1),
        };
    }
    match choice::choose(s, f, kept, worst) {
        Err(r) => refusal_code(r),
        Ok(Extent::All) => put_words(answer, &[0]),
        Ok(Extent::HighOnly) => put_words(answer, &[1]),
    }
}

// The trace check of n releases: two words.
#[unsafe(no_mangle)]
pub extern "C" fn nolkrada_trace_check(
    sheet: &[u32],
    count: u32,
    charge: u8,
    n: u32,
    task: &[u32],
    tick: &[u64],
    cost: &[u32],
    answer: &mut [u64],
) -> u64
    ensures { Ends 2 (as_words trace_words (trace_call (view_of (sheet_from sheet.now count charge)) n task.now tick.now cost.now))
        answer.old result answer.new }
{
    let s = sheet_from(sheet, count, charge);
    let list = Releases {
        count: n as usize,
        task,
        tick,
        cost,
    };
    match trace::check_trace(s, &list) {
        Err(r) => slots_code(r, 2, answer.len()),
        Ok(None) => put_words(answer, &[0, 0]),
        Ok(Some(p)) => put_words(answer, &[1, p as u64]),
    }
}

// The ready ticks of n releases, with kept jitters.
#[unsafe(no_mangle)]
pub extern "C" fn nolkrada_ready(
    sheet: &[u32],
    count: u32,
    charge: u8,
    kept: &[u32],
    n: u32,
    task: &[u32],
    tick: &[u64],
    cost: &[u32],
    ready: &mut [u64],
) -> u64
    ensures code { result
        ≡ code_of (refusal_of (ready_inputs (view_of (sheet_from sheet.now count charge)) kept.now n task.now tick.now cost.now
        ready.old)) }
    ensures ticks { ready.new
        ≡ column_after (refusal_of
        (ready_inputs (view_of (sheet_from sheet.now count charge)) kept.now n task.now tick.now cost.now
        ready.old))
        (ready_list (view_of (sheet_from sheet.now count charge)) (column kept.now)
        (releases_of n task.now tick.now cost.now)) ready.old }
{
    let s = sheet_from(sheet, count, charge);
    let list = Releases {
        count: n as usize,
        task,
        tick,
        cost,
    };
    let checked = trace::ready_ticks(s, kept, &list, ready);
    code_of(checked)
}

// The run of n releases, with kept jitters: ready and finish ticks.
#[unsafe(no_mangle)]
pub extern "C" fn nolkrada_run(
    sheet: &[u32],
    count: u32,
    charge: u8,
    frame: &[u32],
    kept: &[u32],
    n: u32,
    task: &[u32],
    tick: &[u64],
    cost: &[u32],
    ready: &mut [u64],
    finish: &mut [u64],
) -> u64
    ensures code { result
        ≡ code_of (refusal_of (run_inputs (framed_from sheet.now count charge frame.now) kept.now n task.now tick.now cost.now
        ready.old finish.old)) }
    ensures ticks { ready.new
        ≡ column_after (refusal_of
        (run_inputs (framed_from sheet.now count charge frame.now) kept.now n task.now tick.now cost.now ready.old
        finish.old))
        (ready_list (framed_from sheet.now count charge frame.now) (column kept.now)
        (releases_of n task.now tick.now cost.now)) ready.old }
    ensures ends { finish.new
        ≡ column_after (refusal_of
        (run_inputs (framed_from sheet.now count charge frame.now) kept.now n task.now tick.now cost.now ready.old
        finish.old))
        (finish_list (framed_from sheet.now count charge frame.now) (column kept.now)
        (releases_of n task.now tick.now cost.now)) finish.old }
{
    let s = sheet_from(sheet, count, charge);
    let f = frame_from(frame);
    let list = Releases {
        count: n as usize,
        task,
        tick,
        cost,
    };
    let checked = schedule::run(s, f, kept, &list, ready, finish);
    code_of(checked)
}

// The run of n releases from moment to moment, with kept jitters: ready and finish ticks, and one word: how often it stopped.
#[unsafe(no_mangle)]
pub extern "C" fn nolkrada_jump(
    sheet: &[u32],
    count: u32,
    charge: u8,
    frame: &[u32],
    kept: &[u32],
    n: u32,
    task: &[u32],
    tick: &[u64],
    cost: &[u32],
    ready: &mut [u64],
    finish: &mut [u64],
    answer: &mut [u64],
) -> u64
    ensures { ColumnsEnd one_word (jump_answer sheet.now count charge frame.now kept.now n task.now tick.now cost.now ready.old
        finish.old answer.old)
        (ready_list (framed_from sheet.now count charge frame.now) (column kept.now)
        (releases_of n task.now tick.now cost.now))
        (finish_list (framed_from sheet.now count charge frame.now) (column kept.now)
        (releases_of n task.now tick.now cost.now))
        ready.old finish.old answer.old result ready.new finish.new answer.new }
{
    let s = sheet_from(sheet, count, charge);
    let f = frame_from(frame);
    let list = Releases {
        count: n as usize,
        task,
        tick,
        cost,
    };
    if answer.len() < 1 {
        return match queues::check_two(s, f, kept, &list, ready.len(), finish.len()) {
            Err(r) => slots_code(r, 1, answer.len()),
            Ok(()) => short_code(1),
        };
    }
    match jumps::run(s, f, kept, &list, ready, finish) {
        Err(r) => refusal_code(r),
        Ok(stops) => put_words(answer, &[u64::from(stops)]),
    }
}

// How many releases a file has, or what is wrong with it. The reader tells the number even where its columns are too short: as the place of its 13.
fn releases_in(file: &[u8]) -> Result<usize, Refusal>
    ensures { answer_in (λ (n : ℕ). n) result ≡ read_count (decode file.now) }
{
    let mut task = [0; 1];
    let mut tick = [0; 1];
    let mut cost = [0; 1];
    match reader::read(file, &mut task, &mut tick, &mut cost) {
        Ok(read) => Ok(read.releases),
        Err(r) => match r.reason {
            Reason::ShortSlice => Ok(r.place),
            _ => Err(r),
        },
    }
}

// What a read returns, given how many slots are lent for the sheet, each column and the answer. It changes none of them.
fn read_code(file: &[u8], sheet: usize, task: usize, tick: usize, cost: usize, answer: usize) -> u64
    ensures { result ≡ code_in (read_within (decode file.now) sheet task tick cost answer) }
{
    match releases_in(file) {
        Err(r) => refusal_code(r),
        Ok(releases) => {
            if sheet < 160 {
                return short_code(160);
            }
            if task < releases {
                return short_code(releases);
            }
            if tick < releases {
                return short_code(releases);
            }
            if cost < releases {
                return short_code(releases);
            }
            if answer < 3 {
                return short_code(3);
            }
            0
        }
    }
}

// Reads a file: the 160 numbers of its sheet, three columns of releases, and three words: tasks, releases and the charge.
#[unsafe(no_mangle)]
pub extern "C" fn nolkrada_read(
    file: &[u8],
    sheet: &mut [u32],
    task: &mut [u32],
    tick: &mut [u64],
    cost: &mut [u32],
    answer: &mut [u64],
) -> u64
    ensures { ReadEnds (read_answer file.now sheet.old task.old tick.old cost.old answer.old)
        sheet.old task.old tick.old cost.old answer.old result sheet.new task.new tick.new
        cost.new answer.new }
{
    if sheet.len() < 160 {
        return read_code(
            file,
            sheet.len(),
            task.len(),
            tick.len(),
            cost.len(),
            answer.len(),
        );
    }
    if answer.len() < 3 {
        return read_code(
            file,
            sheet.len(),
            task.len(),
            tick.len(),
            cost.len(),
            answer.len(),
        );
    }
    match reader::read(file, task, tick, cost) {
        Err(r) => refusal_code(r),
        Ok(read) => {
            let tasks = read.tasks;
            put_sheet(tasks, sheet);
            put_words(
                answer,
                &[
                    tasks.count as u64,
                    read.releases as u64,
                    u64::from(tasks.charge),
                ],
            )
        }
    }
}

// Loads a text: the 160 numbers of its sheet, and how many tasks as one word.
#[unsafe(no_mangle)]
pub extern "C" fn nolkrada_load(text: &[u8], sheet: &mut [u32], answer: &mut [u64]) -> u64
    ensures { LoadEnds (load_answer text.now sheet.old answer.old) sheet.old answer.old result sheet.new
        answer.new }
{
    match loader::load(text) {
        Err(r) => refusal_code(r),
        Ok(tasks) => {
            let slots = sheet.len();
            if slots < 160 {
                return short_code(160);
            }
            if answer.len() < 1 {
                return short_code(1);
            }
            put_sheet(tasks, sheet);
            put_words(answer, &[tasks.count as u64])
        }
    }
}

// Writes a file: its bytes, and how many as one word.
#[unsafe(no_mangle)]
pub extern "C" fn nolkrada_write(
    sheet: &[u32],
    count: u32,
    charge: u8,
    n: u32,
    task: &[u32],
    tick: &[u64],
    cost: &[u32],
    out: &mut [u8],
    answer: &mut [u64],
) -> u64
    ensures { WriteEnds (write_answer sheet.now count charge n task.now tick.now cost.now out.old answer.old)
        out.old answer.old result out.new answer.new }
{
    let s = sheet_from(sheet, count, charge);
    let list = Releases {
        count: n as usize,
        task,
        tick,
        cost,
    };
    if answer.len() < 1 {
        return match writer::check_write(s, &list, out.len()) {
            Err(r) => slots_code(r, 1, answer.len()),
            Ok(()) => short_code(1),
        };
    }
    match writer::write(s, &list, out) {
        Err(r) => refusal_code(r),
        Ok(bytes) => put_words(answer, &[bytes as u64]),
    }
}

// Opens a window for the last 256 jobs on a sheet, in 546 lent slots.
#[unsafe(no_mangle)]
pub extern "C" fn nolkrada_monitor_open(
    sheet: &[u32],
    count: u32,
    charge: u8,
    window: &mut [u64],
) -> u64
    ensures code { result ≡ code_of (refusal_of (open_inputs (view_of (sheet_from sheet.now count charge)) window.old)) }
    ensures slots { window.new ≡ open_after (view_of (sheet_from sheet.now count charge)) window.old }
{
    let s = sheet_from(sheet, count, charge);
    let checked = monitor::open_window(s, window);
    code_of(checked)
}

// Takes one finished job into a window: its task and its response.
#[unsafe(no_mangle)]
pub extern "C" fn nolkrada_monitor_take(window: &mut [u64], task: u32, response: u64) -> u64
    ensures code { result ≡ code_of (check_task_in window.old task) }
    ensures slots { window.new ≡ job_after window.old (record { task = task; response = response }) }
{
    let checked = monitor::take_job(window, task as usize, response);
    code_of(checked)
}

// Shows one task of a window: three words.
#[unsafe(no_mangle)]
pub extern "C" fn nolkrada_monitor_show(window: &[u64], task: u32, answer: &mut [u64]) -> u64
    ensures { Ends 3 (as_words shown_words (show_call window.now task)) answer.old result answer.new }
{
    match monitor::show_task(window, task as usize) {
        Err(r) => slots_code(r, 3, answer.len()),
        Ok(tally) => put_words(
            answer,
            &[u64::from(tally.jobs), u64::from(tally.late), tally.largest],
        ),
    }
}

// Shows all tasks of a window: a slot for each task in three columns.
#[unsafe(no_mangle)]
pub extern "C" fn nolkrada_monitor_show_all(
    window: &[u64],
    jobs: &mut [u32],
    late: &mut [u32],
    largest: &mut [u64],
) -> u64
    ensures code { result ≡ code_of (all_refusal window.now jobs.old late.old largest.old) }
    ensures jobs_shown { jobs.new
        ≡ column_after (all_refusal window.now jobs.old late.old largest.old)
        (jobs_column (tasks_in window.now) (held_in window.now)) jobs.old }
    ensures late_shown { late.new
        ≡ column_after (all_refusal window.now jobs.old late.old largest.old)
        (late_column (tasks_in window.now) (deadline_in window.now) (held_in window.now)) late.old }
    ensures largest_shown { largest.new
        ≡ column_after (all_refusal window.now jobs.old late.old largest.old)
        (largest_column (tasks_in window.now) (held_in window.now)) largest.old }
{
    let checked = monitor::show_all(window, jobs, late, largest);
    code_of(checked)
}

// Opens a board with a sheet, its frame and the choice made of them, in a row of 264 numbers.
#[unsafe(no_mangle)]
pub extern "C" fn nolkrada_board_open(
    sheet: &[u32],
    count: u32,
    charge: u8,
    frame: &[u32],
    board: &mut [u32],
) -> u64
    ensures { Ends board_numbers (as_words board_row (open_call (framed_from sheet.now count charge frame.now))) board.old result board.new }
{
    let s = sheet_from(sheet, count, charge);
    let f = frame_from(frame);
    rowcalls::open_row(s, f, board)
}

// Asks for a new task at a priority place of a sheet with its frame: the new sheet and its choice, in a row of 227 numbers.
#[unsafe(no_mangle)]
pub extern "C" fn nolkrada_board_ask(
    sheet: &[u32],
    count: u32,
    charge: u8,
    frame: &[u32],
    task: &[u32],
    place: u32,
    offer: &mut [u32],
) -> u64
    ensures { Ends offer_numbers
        (as_words plan_row (ask_call (framed_from sheet.now count charge frame.now) (task_entry (task_at task.now 0)) place))
        offer.old result offer.new }
{
    let s = sheet_from(sheet, count, charge);
    let f = frame_from(frame);
    let t = task_at(task, 0);
    rowcalls::ask_row(s, f, t, place as usize, offer)
}

// Commits an offer to a board: with the sheet and frame that it was asked of, the n releases since the last commit, and a tick.
#[unsafe(no_mangle)]
pub extern "C" fn nolkrada_board_commit(
    board: &mut [u32],
    offer: &[u32],
    sheet: &[u32],
    count: u32,
    charge: u8,
    frame: &[u32],
    n: u32,
    task: &[u32],
    tick: &[u64],
    cost: &[u32],
    at: u64,
) -> u64
    ensures { Ends board_numbers
        (as_words board_row
        (commit_call (board_view (board_from board.old))
        (commit_of (plan_from offer.now) (sheet_from sheet.now count charge) (frame_from frame.now) n task.now tick.now
        cost.now at))) board.old result board.new }
{
    let o = rows::plan_from(offer);
    let s = sheet_from(sheet, count, charge);
    let f = frame_from(frame);
    let list = Releases {
        count: n as usize,
        task,
        tick,
        cost,
    };
    rowcalls::commit_row(board, o, s, f, &list, at)
}

// The small trace of a sheet at a position counted from 0, of up to `releases` releases with ticks below `ticks`: its releases in three columns, and two words,
// 1 and their number; or 0 and 0 past the last trace.
#[unsafe(no_mangle)]
pub extern "C" fn nolkrada_small_trace(
    sheet: &[u32],
    count: u32,
    charge: u8,
    releases: u32,
    ticks: u32,
    position: u64,
    task: &mut [u32],
    tick: &mut [u64],
    cost: &mut [u32],
    answer: &mut [u64],
) -> u64
    ensures { SmallWordsEnd
        (small_answer (view_of (sheet_from sheet.now count charge)) releases ticks position task.old tick.old cost.old
        answer.old)
        task.old tick.old cost.old answer.old result task.new tick.new cost.new answer.new }
{
    let s = sheet_from(sheet, count, charge);
    smallcalls::trace_words(
        s,
        releases as usize,
        ticks as usize,
        position,
        task,
        tick,
        cost,
        answer,
    )
}

// How many small traces a sheet has: one word.
#[unsafe(no_mangle)]
pub extern "C" fn nolkrada_small_trace_count(
    sheet: &[u32],
    count: u32,
    charge: u8,
    releases: u32,
    ticks: u32,
    answer: &mut [u64],
) -> u64
    ensures { WordsEnd 1 one_word (count_call (view_of (sheet_from sheet.now count charge)) releases ticks) answer.old result answer.new }
{
    let s = sheet_from(sheet, count, charge);
    smallcalls::count_words(s, releases as usize, ticks as usize, answer)
}
