// Board and commit (document 02, R-11): the sheet in force with its frame and its choice, which only commits change.
#![tactic(auto)]

ghost use Rattle.std.specs.Prelude.{◌≡◌, ◌≤◌, length, take, IsErr};
ghost use Rattle.std.proofs.Math.Option.{none};
ghost use Rattle.model.specs.Slots.{Holds};
ghost use Rattle.model.specs.Choice.{column};
ghost use Rattle.refusal.specs.Refusal.{refusal_in};
ghost use Rattle.frame.specs.FrameView.{framed_of};
ghost use Rattle.admission.specs.Offers.{answer_by};
ghost use Rattle.admission.specs.Boards as admission_boards;
ghost use Rattle.plan.specs.PlanView.{board_view};
ghost use Rattle.board.specs.BoardCalls.{board_in, commit_of, list_refusal, soon_after};
ghost use Rattle.releases.specs.Over.{over};

use frame::Frame;
use plan::{Board, Plan};
use refusal::{Reason, Refusal};
use releases::Releases;
use taskset::TaskSet;

// Opens a board with a sheet, its frame and the choice made of them, or the choice's refusal: 5, 4, 6 and 17 by task, 18, 15.
pub fn open(s: TaskSet, f: Option<Frame>) -> Result<Board, Refusal>
    ensures { board_in result ≡ admission_boards.open_call (framed_of s f) }
{
    let plan = offer::plan_of(s, f)?;
    Ok(Board {
        plan,
        frame: f,
        last: 0,
    })
}

// The kept jitters of a record, one for each task; 0 past them.
fn kept_of(p: Plan) -> [u32; 32]
    requires { p.tasks.count ≤ 32 }
    ensures { Holds (column p.keep) p.tasks.count 32 result }
{
    let count = p.tasks.count;
    let mut kept: [u32; 32] = [0; 32];
    for i in 0..count {
        kept[i] = p.keep[i];
    }
    kept
}

// The checks of a commit before the offer: the sheet in force and its frame (5, 4, 6, 17, 18), the count of the releases (10), their columns (13), the kept jitters in
// force (12), and the releases in order (7, 8, 9), none of them before the last commit's tick.
fn check_list(b: Board, list: &Releases) -> Result<(), Refusal>
    ensures { refusal_in result ≡ over (list_refusal (board_view b)) list.now }
{
    let plan = b.plan;
    let s = plan.tasks;
    frame::check_sheet(s, b.frame)?;
    releases::check_count(list.count)?;
    releases::check_columns(list.count, list.task, list.tick, list.cost)?;
    let kept = kept_of(plan);
    taskset::check_kept(s, &kept)?;
    releases::check_releases(s, b.last, list)
}

// Whether one of the first n ticks of a column is over t.
fn any_over(column: &[u64], n: usize, t: u64) -> bool
    requires { n ≤ length column.now }
    ensures { result ≡ admission_boards.any_over t (take n column.now) }
{
    for i in 0..n {
        if t < column[i] {
            return true;
        }
    }
    false
}

// Whether a tick is before the last commit's, or before a finish of the run of these releases.
fn is_too_soon(b: Board, list: &Releases, at: u64) -> bool
    requires { none ≡ over (list_refusal (board_view b)) list.now }
    ensures { result ≡ over (soon_after (board_view b)) list.now at }
{
    if at < b.last {
        return true;
    }
    let plan = b.plan;
    let kept = kept_of(plan);
    let mut ready: [u64; 1024] = [0; 1024];
    let mut finish: [u64; 1024] = [0; 1024];
    let _ = jumps::run(plan.tasks, b.frame, &kept, list, &mut ready, &mut finish);
    any_over(&finish, list.count, at)
}

// The checks of a commit: those of the releases, then 19 at 0 where the offer is stale, then 20 at 0 where the tick is too soon.
pub fn check_commit(
    b: Board,
    o: Plan,
    s: TaskSet,
    f: Option<Frame>,
    list: &Releases,
    at: u64,
) -> Result<(), Refusal>
    ensures { refusal_in result
        ≡ admission_boards.commit_refusal (board_view b) (over (commit_of o s f) list.now at) }
{
    check_list(b, list)?;
    let plan = b.plan;
    if comparison::is_stale(plan.tasks, b.frame, s, f, o) {
        return Err(Refusal {
            reason: Reason::Stale,
            place: 0,
        });
    }
    if is_too_soon(b, list, at) {
        return Err(Refusal {
            reason: Reason::TooSoon,
            place: 0,
        });
    }
    Ok(())
}

// Commit: takes an offer, the sheet and frame that it was asked of, the releases since the last commit, and a tick. It puts the new sheet and its choice in force from that
// tick on, as a new run with no earlier job. A refusal leaves the board.
pub fn commit(
    b: &mut Board,
    o: Plan,
    s: TaskSet,
    f: Option<Frame>,
    list: &Releases,
    at: u64,
) -> Result<(), Refusal>
    ensures answer { answer_by (refusal_in result) (board_view b.new)
        ≡ admission_boards.commit_call (board_view b.old) (over (commit_of o s f) list.now at) }
    ensures left { board_view b.new
        ≡ admission_boards.board_after (board_view b.old) (over (commit_of o s f) list.now at) }
    ensures untouched { IsErr result → b.new ≡ b.old }
{
    check_commit(*b, o, s, f, list, at)?;
    *b = Board {
        plan: o,
        frame: f,
        last: at,
    };
    Ok(())
}
