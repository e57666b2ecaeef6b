// Runs the stored cases of both runs, and prints a line for each: the answer of the ticking run and every slot of its lent columns of ready and
// finish ticks, then those of the run that jumps, whose columns held the same. A case may ask for the run that jumps alone, where ticking would
// take too long.
#![tactic(auto)]

ghost use Rattle.std.specs.Prelude.{◌≡◌};
ghost use Rattle.model.specs.Choice.{column};
ghost use Rattle.model.specs.Checks.{refusal_of};
ghost use Rattle.model.specs.Ready.{ready_list};
ghost use Rattle.model.specs.Run.{finish_list};
ghost use Rattle.model.specs.Calls.{releases_of, column_after, run_inputs};
ghost use Rattle.frame.specs.FrameView.{framed_of};
ghost use Rattle.releases.specs.Over.{over};

use frame::Frame;
use refusal::Refusal;
use releases::Releases;
use taskset::TaskSet;

// Calls the run, and prints the answer and the columns lent.
fn run_call(
    set: TaskSet,
    frame: Option<Frame>,
    kept: &[u32],
    list: &Releases,
    ready: &mut [u64],
    finish: &mut [u64],
)
    ensures ticks { ready.new
        ≡ column_after
        (refusal_of (over (run_inputs (framed_of set frame) kept.now) list.now ready.old finish.old))
        (ready_list (framed_of set frame) (column kept.now) (over releases_of list.now))
        ready.old }
    ensures finishes { finish.new
        ≡ column_after
        (refusal_of (over (run_inputs (framed_of set frame) kept.now) list.now ready.old finish.old))
        (finish_list (framed_of set frame) (column kept.now) (over releases_of list.now))
        finish.old }
{
    cases::print_checked(schedule::run(set, frame, kept, list, ready, finish));
    cases::print_ticks(ready);
    cases::print_ticks(finish);
}

// Prints what the run that jumps answers.
fn print_jump(answer: Result<u32, Refusal>) {
    match answer {
        Ok(stops) => {
            cases::print_number(u64::from(stops));
            cases::print_words(b"stops");
        }
        Err(r) => cases::print_refusal(r),
    }
}

// Calls the run that jumps, and prints the answer and the columns lent.
fn jump_call(
    set: TaskSet,
    frame: Option<Frame>,
    kept: &[u32],
    list: &Releases,
    ready: &mut [u64],
    finish: &mut [u64],
)
    ensures ticks { ready.new
        ≡ column_after
        (refusal_of (over (run_inputs (framed_of set frame) kept.now) list.now ready.old finish.old))
        (ready_list (framed_of set frame) (column kept.now) (over releases_of list.now))
        ready.old }
    ensures finishes { finish.new
        ≡ column_after
        (refusal_of (over (run_inputs (framed_of set frame) kept.now) list.now ready.old finish.old))
        (finish_list (framed_of set frame) (column kept.now) (over releases_of list.now))
        finish.old }
{
    print_jump(jumps::run(set, frame, kept, list, ready, finish));
    cases::print_ticks(ready);
    cases::print_ticks(finish);
}

// A case: 0 for both runs, 1 for the run that jumps alone; count of releases; then the frame, if any, kept jitters, tasks, ticks, costs, and the columns of ready and
// finish ticks.
fn run_case(head: &[u32; 168]) {
    let set = cases::task_set(head);
    let frame = cases::frame_in(head);
    let count = cases::index(head[1]);
    let kept = cases::lent_column::<64>();
    let task = cases::lent_column::<1056>();
    let tick = cases::lent_ticks::<1056>();
    let cost = cases::lent_column::<1056>();
    let list = Releases {
        count,
        task: task.as_slice(),
        tick: tick.as_slice(),
        cost: cost.as_slice(),
    };
    let mut ready = cases::lent_ticks::<1056>();
    let readies = ready.lent;
    let mut finish = cases::lent_ticks::<1056>();
    let finishes = finish.lent;
    let mut ready2 = ready.slots;
    let mut finish2 = finish.slots;
    if head[0] != 1 {
        run_call(
            set,
            frame,
            kept.as_slice(),
            &list,
            &mut ready.slots[..readies],
            &mut finish.slots[..finishes],
        );
        cases::print_half();
    }
    jump_call(
        set,
        frame,
        kept.as_slice(),
        &list,
        &mut ready2[..readies],
        &mut finish2[..finishes],
    );
}

fn main() {
    cases::run_cases(run_case);
}
