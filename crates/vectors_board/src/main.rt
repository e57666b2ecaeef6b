// Runs the stored cases of board, ask and commit, and prints a line for each: the answer of the opening and the board, then each step after a mark. A step is an ask,
// with its answer and the offer, or a commit, with its answer and the board after it.
#![tactic(auto)]

ghost use Rattle.std.specs.Prelude.{◌≡◌};
ghost use Rattle.frame.specs.FrameView.{framed_of};
ghost use Rattle.admission.specs.Offers as admission_offers;
ghost use Rattle.admission.specs.Boards as admission_boards;
ghost use Rattle.plan.specs.PlanView.{task_entry, board_view};
ghost use Rattle.offer.specs.Plans.{plan_in};
ghost use Rattle.releases.specs.Over.{over};
ghost use Rattle.board.specs.BoardCalls.{board_in, commit_of};

use frame::{Frame, Window};
use plan::{Board, Plan};
use refusal::Refusal;
use releases::Releases;
use taskset::{Task, TaskSet};

// The board, and the offer of the last ask that was not refused.
#[derive(Clone, Copy)]
struct Held {
    board: Board,
    offer: Plan,
}

// Prints count and charge of a sheet, and its tasks below the count.
fn print_sheet(set: TaskSet) {
    cases::print_named(b"sheet", set.count as u64);
    cases::print_named(b"charge", set.charge as u64);
    for i in 0..set.count.min(32) {
        cases::print_task(set.tasks[i]);
    }
}

// Prints the numbers of a column below a count after a comma.
fn print_below(column: [u32; 32], count: usize) {
    cases::print_comma();
    for i in 0..count.min(32) {
        cases::print_number(u64::from(column[i]));
    }
}

// Prints a sheet and its choice: kept jitters, worst values, and whether it is that of the high tasks alone.
fn print_plan(plan: Plan) {
    let set = plan.tasks;
    print_sheet(set);
    cases::print_words(b"kept");
    print_below(plan.keep, set.count);
    cases::print_words(b"worst");
    print_below(plan.worst, set.count);
    if plan.partial {
        cases::print_words(b"high only");
    }
}

// Prints a window after a comma.
fn print_window(w: Window) {
    cases::print_comma();
    cases::print_number(u64::from(w.first));
    cases::print_number(u64::from(w.length));
}

// Prints a frame: its ticks, and its windows below the count.
fn print_frame(frame: Frame) {
    cases::print_named(b"frame", u64::from(frame.ticks));
    for k in 0..frame.count.min(16) {
        print_window(frame.windows[k]);
    }
}

// Prints a board: the sheet in force with its choice, its frame, and the tick of the last commit.
fn print_board(board: Board) {
    print_plan(board.plan);
    if let Some(frame) = board.frame {
        print_frame(frame);
    }
    cases::print_named(b"last", board.last);
}

// Prints whether a call answered, or its refusal.
fn print_answer<T>(got: &Result<T, Refusal>) {
    match got {
        Ok(_) => cases::print_words(b"fine"),
        Err(r) => cases::print_refusal(*r),
    }
}

// Opens a board, and prints the answer.
fn open_call(set: TaskSet, frame: Option<Frame>) -> Result<Board, Refusal>
    ensures { board_in result ≡ admission_boards.open_call (framed_of set frame) }
{
    let got = board::open(set, frame);
    print_answer(&got);
    got
}

// Asks, and prints the answer.
fn ask_call(set: TaskSet, frame: Option<Frame>, task: Task, place: usize) -> Result<Plan, Refusal>
    ensures { admission_offers.SameAnswer (plan_in frame result) (admission_offers.ask_call (framed_of set frame) (task_entry task) place) }
{
    let got = offer::ask(set, frame, task, place);
    print_answer(&got);
    got
}

// Commits, and prints the answer; what is left is the board after it.
fn commit_call(
    board: &mut Board,
    offer: Plan,
    set: TaskSet,
    frame: Option<Frame>,
    list: &Releases,
    at: u64,
)
    ensures { board_view board.new
        ≡ admission_boards.board_after (board_view board.old) (over (commit_of offer set frame) list.now at) }
{
    let got = board::commit(board, offer, set, frame, list, at);
    print_answer(&got);
}

// A sheet with kept jitters and worst values of the next two blocks. Number 1 of its own block says whether the choice is that of the high tasks alone.
fn plan_in(head: &[u32; 168]) -> Plan {
    let set = cases::task_set(head);
    let mut keep = [0u32; 32];
    cases::read_column(&mut keep);
    let mut worst = [0u32; 32];
    cases::read_column(&mut worst);
    Plan {
        tasks: set,
        keep,
        worst,
        partial: head[1] != 0,
    }
}

// The tick of the next block.
fn read_tick() -> u64 {
    let mut tick = [0u64; 1];
    cases::read_ticks(&mut tick);
    tick[0]
}

// A sheet without a choice.
fn without_choice(set: TaskSet) -> Plan {
    Plan {
        tasks: set,
        keep: [0; 32],
        worst: [0; 32],
        partial: false,
    }
}

// Opens the board of a case, or takes it from the next blocks: kept jitters, worst values and the tick of the last commit. Prints it, but for a refused opening and where
// there are asks alone.
fn start(head: &[u32; 168]) -> Board {
    let set = cases::task_set(head);
    let frame = cases::frame_in(head);
    if head[0] == 0 {
        return match open_call(set, frame) {
            Ok(board) => {
                print_board(board);
                board
            }
            Err(_) => Board {
                plan: without_choice(set),
                frame,
                last: 0,
            },
        };
    }
    let plan = plan_in(head);
    let last = read_tick();
    let given = Board { plan, frame, last };
    if head[0] == 1 {
        print_board(given);
    }
    given
}

// The task of the next block: P, J, E, D and the mark, 0 for high and any other number for low.
fn read_task() -> Task {
    let mut row = [0u32; 5];
    cases::read_column(&mut row);
    Task {
        period: row[0],
        jitter: row[1],
        cost: row[2],
        deadline: row[3],
        low: row[4] != 0,
    }
}

// A step that asks: the place; then the new task. Prints the offer, where the ask is not refused.
fn ask_step(held: Held, head: &[u32; 168]) -> Held {
    let set = cases::task_set(head);
    let frame = cases::frame_in(head);
    let task = read_task();
    match ask_call(set, frame, task, cases::index(head[1])) {
        Err(_) => held,
        Ok(plan) => {
            print_plan(plan);
            Held {
                board: held.board,
                offer: plan,
            }
        }
    }
}

// The offer of a commit: that of the last ask, or the one of the next blocks.
fn offer_for(held: Held, kind: u32) -> Plan {
    if kind == 1 {
        return held.offer;
    }
    let mut head = [0u32; 168];
    cases::read_column(&mut head);
    plan_in(&head)
}

// A step that commits: the count of releases; then the offer, where it is not that of the last ask, tasks, ticks, costs, and the tick of the commit. Prints the board
// after it.
fn commit_step(held: Held, head: &[u32; 168]) -> Held {
    let set = cases::task_set(head);
    let frame = cases::frame_in(head);
    let offer = offer_for(held, head[0]);
    let task = cases::lent_column::<1056>();
    let tick = cases::lent_ticks::<1056>();
    let cost = cases::lent_column::<1056>();
    let list = Releases {
        count: cases::index(head[1]),
        task: task.as_slice(),
        tick: tick.as_slice(),
        cost: cost.as_slice(),
    };
    let at = read_tick();
    let mut board = held.board;
    commit_call(&mut board, offer, set, frame, &list, at);
    print_board(board);
    Held {
        board,
        offer: held.offer,
    }
}

// A step after its mark: 0 asks, 1 commits the offer of the last ask, 2 commits a given one. The sheet and the frame asked of are in it.
fn step(held: Held) -> Held {
    let mut head = [0u32; 168];
    cases::read_column(&mut head);
    cases::print_half();
    if head[0] == 0 {
        return ask_step(held, &head);
    }
    commit_step(held, &head)
}

// A case: 0 to open a board, 1 for a given one, 2 for asks alone; whether the choice of the given one is that of the high tasks alone; the number of steps; then the
// frame, if any, the given board, and the steps.
fn board_case(head: &[u32; 168]) {
    let board = start(head);
    let mut held = Held {
        board,
        offer: board.plan,
    };
    for _ in 0..head[2] {
        held = step(held);
    }
}

fn main() {
    cases::run_cases(board_case);
}
