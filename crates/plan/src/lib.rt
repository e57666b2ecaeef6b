// A sheet with its choice as one record, and a board, by value (document 02, R-11).
#![tactic(auto)]

use frame::Frame;
use taskset::TaskSet;

// A sheet with its choice: a kept jitter and a worst value for each task, and whether it is the choice of the high tasks alone. An offer is such a record. Slots past
// the count of the sheet do not matter.
#[derive(Clone, Copy)]
pub struct Plan {
    pub tasks: TaskSet,
    pub keep: [u32; 32],
    pub worst: [u32; 32],
    pub partial: bool,
}

// A board: the sheet in force with its choice, its frame, if there is one, and the tick of the last commit, 0 where there is none yet.
#[derive(Clone, Copy)]
pub struct Board {
    pub plan: Plan,
    pub frame: Option<Frame>,
    pub last: u64,
}
