// The comparisons of a commit (document 02, R-11): sheets, frames and offers that say the same, entries past the counts left out; and whether an offer is what an ask
// gives.
#![tactic(auto)]

ghost use Rattle.std.specs.Prelude.{Option, ◌≡◌, not, ◌&&◌, ◌≤◌};
ghost use Rattle.std.proofs.Math.Option.{some};
ghost use Rattle.model.specs.Search.{first};
ghost use Rattle.model.specs.Tasks.{Valid};
ghost use Rattle.model.proofs.FrameLaws.{Ruled};
ghost use Rattle.taskset.specs.TaskSet.{view_of};
ghost use Rattle.frame.specs.FrameView.{windows_of, frame_of, framed_of};
ghost use Rattle.admission.specs.Boards.{nowhere, or_end, differs, window_differs, same_frame, same_tasks, same_plan, is_offer};
ghost use Rattle.plan.specs.PlanView.{plan_view};

use frame::Frame;
use plan::Plan;
use taskset::TaskSet;

// The first of n tasks in which two sheets differ, n where there is none.
fn first_difference(a: TaskSet, b: TaskSet, n: usize) -> usize
    requires { n ≤ 32 }
    ensures { result ≡ or_end n (first (differs (view_of a) (view_of b)) n 0) }
{
    for i in 0..n {
        if a.tasks[i] != b.tasks[i] {
            return i;
        }
    }
    n
}

// Whether two sheets, their frames left out, have the same count and charge and the same tasks below the count.
fn same_sheet(a: TaskSet, b: TaskSet) -> bool
    requires { a.count ≤ 32 }
    ensures { result ≡ same_tasks (view_of a) (view_of b) }
{
    if a.count != b.count {
        return false;
    }
    if a.charge != b.charge {
        return false;
    }
    a.count <= first_difference(a, b, a.count)
}

// Whether the first n windows of two frames are the same.
fn same_windows(f: Frame, g: Frame, n: usize) -> bool
    requires { n ≤ 16 }
    ensures { result ≡ nowhere (window_differs (windows_of f) (windows_of g)) n }
{
    for k in 0..n {
        if f.windows[k] != g.windows[k] {
            return false;
        }
    }
    true
}

// Whether two frames have the same ticks and count and the same windows below the count.
fn same_ticks(f: Frame, g: Frame) -> bool
    requires { f.count ≤ 16 }
    ensures { result ≡ same_frame (some (windows_of f)) (some (windows_of g)) }
{
    if f.ticks != g.ticks {
        return false;
    }
    if f.count != g.count {
        return false;
    }
    same_windows(f, g, f.count)
}

// Whether there is no frame, or two frames have the same ticks and count and the same windows below the count.
pub fn same_frame(f: Option<Frame>, g: Option<Frame>) -> bool
    requires { Ruled (frame_of f) }
    ensures { result ≡ same_frame (frame_of f) (frame_of g) }
{
    match f {
        None => g.is_none(),
        Some(one) => match g {
            None => false,
            Some(other) => same_ticks(one, other),
        },
    }
}

// Whether two records of the same frame say the same.
fn same_plan(a: Plan, b: Plan) -> bool
    requires { a.tasks.count ≤ 32 }
    ensures { (f : Option Frame) → result ≡ same_plan (plan_view a f) (plan_view b f) }
{
    if !same_sheet(a.tasks, b.tasks) {
        return false;
    }
    let count = a.tasks.count;
    if a.keep[..count] != b.keep[..count] {
        return false;
    }
    if a.worst[..count] != b.worst[..count] {
        return false;
    }
    a.partial == b.partial
}

// Whether an offer is what some ask on a sheet with its frame gives. The place of the new task is the first at which the sheets differ; one ask decides.
fn is_offer(s: TaskSet, f: Option<Frame>, o: Plan) -> bool
    requires { s.count ≤ 32 }
    ensures { result ≡ is_offer (framed_of s f) (plan_view o f) }
{
    if 32 <= s.count {
        return false;
    }
    let place = first_difference(s, o.tasks, s.count);
    let t = o.tasks.tasks[place];
    match offer::ask(s, f, t, place) {
        Ok(plan) => same_plan(plan, o),
        Err(_) => false,
    }
}

// Whether an offer is stale: the sheet held or its frame differs from the one asked of, or no ask on that one gives the offer.
pub fn is_stale(held: TaskSet, framed: Option<Frame>, s: TaskSet, f: Option<Frame>, o: Plan) -> bool
    requires { Valid (framed_of held framed) }
    ensures { result ≡ not (same_tasks (framed_of held framed) (framed_of s f) && is_offer (framed_of s f) (plan_view o f)) }
{
    if !same_sheet(held, s) {
        return true;
    }
    if !same_frame(framed, f) {
        return true;
    }
    !is_offer(s, f, o)
}
