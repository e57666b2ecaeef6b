// Runs the stored cases of arrival count, verdict and choice, and prints a line for each: the answer, and every slot of the lent columns that the
// choice writes.
#![tactic(auto)]

ghost use Rattle.std.specs.Prelude.{◌≡◌};
ghost use Rattle.model.specs.Checks.{refusal_of};
ghost use Rattle.model.specs.Choice as model_choice;
ghost use Rattle.model.specs.Calls.{choice_inputs, column_after, kept_column, worst_column};
ghost use Rattle.frame.specs.FrameView.{framed_of};

use choice::Extent;
use frame::Frame;
use refusal::Refusal;
use taskset::TaskSet;
use verdict::Verdict;

// Prints what the arrival count answers.
fn print_arrivals(answer: Result<u64, Refusal>) {
    match answer {
        Ok(n) => cases::print_number(n),
        Err(r) => cases::print_refusal(r),
    }
}

// Prints a verdict.
fn print_verdict(verdict: Verdict) {
    match verdict {
        Verdict::Horizon { q, evaluations } => {
            cases::print_named(b"horizon q", u64::from(q));
            cases::print_named(b"evaluations", evaluations);
        }
        Verdict::Late {
            q,
            bound,
            evaluations,
        } => {
            cases::print_named(b"late q", u64::from(q));
            cases::print_named(b"R", u64::from(bound));
            cases::print_named(b"evaluations", evaluations);
        }
        Verdict::Fits {
            worst,
            q,
            evaluations,
        } => {
            cases::print_named(b"fits R", u64::from(worst));
            cases::print_named(b"q", u64::from(q));
            cases::print_named(b"evaluations", evaluations);
        }
    }
}

// A case of the arrival count: task and t; then the kept jitters.
fn arrival_case(head: &[u32; 168]) {
    let set = cases::task_set(head);
    let kept = cases::lent_column::<64>();
    print_arrivals(demand::arrival_count(set, cases::index(head[1]), kept.as_slice(), head[2]));
}

// A case of the verdict: task; then the frame, if any, and the kept jitters.
fn verdict_case(head: &[u32; 168]) {
    let set = cases::task_set(head);
    let frame = cases::frame_in(head);
    let kept = cases::lent_column::<64>();
    match verdict::verdict_of(set, frame, cases::index(head[1]), kept.as_slice()) {
        Ok(verdict) => print_verdict(verdict),
        Err(r) => cases::print_refusal(r),
    }
}

// Prints what the choice answers.
fn print_choice(answer: Result<Extent, Refusal>) {
    match answer {
        Ok(Extent::All) => cases::print_words(b"fits"),
        Ok(Extent::HighOnly) => cases::print_words(b"high only"),
        Err(r) => cases::print_refusal(r),
    }
}

// Calls the choice, and prints the answer and the columns lent.
fn choice_call(set: TaskSet, frame: Option<Frame>, kept: &mut [u32], worst: &mut [u32])
    ensures kept_after { kept.new
        ≡ column_after (refusal_of (choice_inputs (framed_of set frame) kept.old worst.old)) (kept_column (model_choice.choice (framed_of set frame))) kept.old }
    ensures worst_after { worst.new
        ≡ column_after (refusal_of (choice_inputs (framed_of set frame) kept.old worst.old)) (worst_column (model_choice.choice (framed_of set frame)))
        worst.old }
{
    print_choice(choice::choose(set, frame, kept, worst));
    cases::print_column(kept);
    cases::print_column(worst);
}

// A case of the choice: the frame, if any; then the columns of kept jitters and of worst values.
fn choice_case(head: &[u32; 168]) {
    let set = cases::task_set(head);
    let frame = cases::frame_in(head);
    let mut kept = cases::lent_column::<64>();
    let keeps = kept.lent;
    let mut worst = cases::lent_column::<64>();
    let worsts = worst.lent;
    choice_call(
        set,
        frame,
        &mut kept.slots[..keeps],
        &mut worst.slots[..worsts],
    );
}

// One case: 0 is the arrival count, 1 the verdict, 2 the choice.
fn one(head: &[u32; 168]) {
    if head[0] == 0 {
        arrival_case(head);
    } else if head[0] == 1 {
        verdict_case(head);
    } else {
        choice_case(head);
    }
}

fn main() {
    cases::run_cases(one);
}
