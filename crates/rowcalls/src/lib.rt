// Opening, ask and commit on lent rows of numbers, as the library for C has them: a code back, and a row that a refusal leaves as it was.
#![tactic(auto)]

ghost use Rattle.frame.specs.FrameView.{framed_of};
ghost use Rattle.admission.specs.Offers as admission_offers;
ghost use Rattle.admission.specs.Boards as admission_boards;
ghost use Rattle.plan.specs.PlanView.{task_entry, board_view};
ghost use Rattle.board.specs.BoardCalls.{commit_of};
ghost use Rattle.rows.specs.Rows as rows_rows;
ghost use Rattle.interface.specs.Interface.{as_words, Ends};
ghost use Rattle.releases.specs.Over.{over};

use frame::Frame;
use interface::{short_code, slots_code};
use plan::Plan;
use releases::Releases;
use taskset::{Task, TaskSet};

// Opens a board in a row of 264 numbers.
pub fn open_row(s: TaskSet, f: Option<Frame>, row: &mut [u32]) -> u64
    ensures { Ends rows_rows.board_numbers (as_words rows_rows.board_row (admission_boards.open_call (framed_of s f))) row.old result row.new }
{
    match board::open(s, f) {
        Err(r) => slots_code(r, 264, row.len()),
        Ok(board) => {
            if row.len() < 264 {
                return short_code(264);
            }
            rows::put_board(board, row);
            0
        }
    }
}

// Asks for a new task at a place of a sheet with its frame, and puts the offer into a row of 227 numbers.
pub fn ask_row(s: TaskSet, f: Option<Frame>, t: Task, place: usize, row: &mut [u32]) -> u64
    ensures { Ends rows_rows.offer_numbers (as_words rows_rows.plan_row (admission_offers.ask_call (framed_of s f) (task_entry t) place)) row.old result row.new }
{
    match offer::ask(s, f, t, place) {
        Err(r) => slots_code(r, 227, row.len()),
        Ok(plan) => {
            if row.len() < 227 {
                return short_code(227);
            }
            rows::put_plan(plan, row);
            0
        }
    }
}

// Commits an offer to the board that a row of 264 numbers holds.
pub fn commit_row(
    row: &mut [u32],
    o: Plan,
    s: TaskSet,
    f: Option<Frame>,
    list: &Releases,
    at: u64,
) -> u64
    ensures { Ends rows_rows.board_numbers
        (as_words rows_rows.board_row
        (admission_boards.commit_call (board_view (rows_rows.board_from row.old))
        (over (commit_of o s f) list.now at))) row.old result row.new }
{
    let mut b = rows::board_from(row);
    match board::commit(&mut b, o, s, f, list, at) {
        Err(r) => slots_code(r, 264, row.len()),
        Ok(()) => {
            if row.len() < 264 {
                return short_code(264);
            }
            rows::put_board(b, row);
            0
        }
    }
}
