// The run that jumps and the ticking run give the same: a consequence of their two contracts, stated over a function that makes both.
#![tactic(auto)]

ghost use Rattle.std.specs.Prelude.{◌≡◌};
ghost use Rattle.frame.specs.FrameView.{framed_of};
ghost use Rattle.agreement.specs.Agreement.{Ticked, Jumped, SameEnds};
ghost use Rattle.releases.specs.Over.{over};

use frame::Frame;
use refusal::Refusal;
use releases::Releases;
use taskset::TaskSet;

// What the ticking run and the run that jumps answered.
#[derive(Clone, Copy)]
pub struct BothAnswers {
    pub ticked: Result<(), Refusal>,
    pub jumped: Result<u32, Refusal>,
}

// Both runs of a list in a frame, if any, the ticking one with the first two columns and the one that jumps with the other two: what each
// answers and leaves in its columns. Where the columns held the same before, the refusals are the same, and so are the columns, slot by slot.
pub fn both_runs(
    s: TaskSet,
    f: Option<Frame>,
    kept: &[u32],
    list: &Releases,
    ready: &mut [u64],
    finish: &mut [u64],
    readies: &mut [u64],
    finishes: &mut [u64],
) -> BothAnswers
    ensures ticks { over (Ticked (framed_of s f) kept.now) list.now ready.old finish.old
        result.ticked ready.new finish.new }
    ensures jumps { over (Jumped (framed_of s f) kept.now) list.now readies.old finishes.old
        result.jumped readies.new finishes.new }
    ensures same { ready.old ≡ readies.old → finish.old ≡ finishes.old
        → SameEnds result.ticked ready.new finish.new result.jumped readies.new finishes.new }
{
    let ticked = schedule::run(s, f, kept, list, ready, finish);
    let jumped = jumps::run(s, f, kept, list, readies, finishes);
    BothAnswers { ticked, jumped }
}
