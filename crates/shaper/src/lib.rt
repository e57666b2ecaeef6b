// Gap and shaper of one task.
#![tactic(auto)]

ghost use Rattle.std.specs.Prelude.{◌≡◌, []};
ghost use Rattle.model.specs.Gap as model_gap;
ghost use Rattle.shaper.specs.Shaper.{state_of, Small, Shapes};

// d_K(k) = max(0, kP − K): the least distance between a ready tick and the one k places before, with kept jitter K.
pub fn gap(period: u32, keep: u32, k: u32) -> u64
    ensures { result ≡ model_gap.gap period keep k }
{
    (u64::from(k) * u64::from(period)).saturating_sub(u64::from(keep))
}

// The state of one task's shaper between two of its jobs: period and kept jitter, the latest ready tick, and the largest of
// ready tick + k × period over the earlier jobs, k places before the next one. Both are 0 before the first job.
#[derive(Clone, Copy)]
pub struct Shaper {
    pub period: u32,
    pub keep: u32,
    pub last: u64,
    pub next: u64,
}

// The state after a job, and the job's ready tick.
#[derive(Clone, Copy)]
pub struct Shaped {
    pub state: Shaper,
    pub ready: u64,
}

impl Shaper {
    // The state before the first job.
    pub fn new(period: u32, keep: u32) -> Shaper
        ensures { result ≡ state_of period keep [] }
    {
        Shaper {
            period,
            keep,
            last: 0,
            next: 0,
        }
    }

    // The next job, released at any tick: its ready tick is the least that is not before the release and lies at least d_K(k) after the
    // ready tick of the job k places before, for every k.
    pub fn shape(self, release: u64) -> Shaped
        requires { Small self release }
        ensures { Shapes self release result }
    {
        let due = self.next.saturating_sub(u64::from(self.keep));
        let floor = self.last.max(due);
        let ready = release.max(floor);
        let state = Shaper {
            period: self.period,
            keep: self.keep,
            last: ready,
            next: self.next.max(ready) + u64::from(self.period),
        };
        Shaped { state, ready }
    }
}
