// Windows in a frame: its check, our ticks among some, and the ticks that some of ours take.
#![tactic(auto)]

ghost use Rattle.std.specs.Prelude.{◌≡◌, ◌&&◌, ℕ, ◌+◌, ◌-◌, ◌≤◌, ◌<◌, min, List, leb, ltb};
ghost use Rattle.model.specs.Limits.{max_tick};
ghost use Rattle.model.specs.Series as model_series;
ghost use Rattle.model.specs.Choice.{column};
ghost use Rattle.model.specs.Frame as model_frame;
ghost use Rattle.model.specs.Checks.{allowed, check_windows, check_frame, check_tasks};
ghost use Rattle.model.proofs.FrameLaws.{Ruled};
ghost use Rattle.refusal.specs.Refusal.{refusal_in};
ghost use Rattle.frame.specs.FrameView.{windows_of, frame_of, framed_of, window_at, frame_from};
ghost use Rattle.frame.specs.Starts.{start_at, starts_of};
ghost use Rattle.frame.specs.Reached.{IsReach};
ghost use Rattle.frame.specs.WindowColumns.{column_windows, column_frame, IsWithin, Located, IsSupply, HasColumns, HasWindows, BeginsAt, frame_in, supply_lent, Prepared};

use numbers::number_at;
use refusal::{Reason, Refusal};
use taskset::TaskSet;

// A window: its first tick in the frame, and its length.
#[derive(Clone, Copy, Debug, PartialEq, Eq)]
pub struct Window {
    pub first: u32,
    pub length: u32,
}

// A frame: its ticks, the number of its windows, and the windows. Those past the number are not looked at. A sheet may have none. An array with a
// count: no heap.
#[derive(Clone, Copy)]
pub struct Frame {
    pub ticks: u32,
    pub count: usize,
    pub windows: [Window; 16],
}

// What the functions over columns need of a frame: its ticks, our ticks of it, the number of its windows, and their first ticks and lengths.
#[derive(Clone, Copy)]
pub struct Supply {
    pub framed: bool,
    pub ticks: u32,
    pub per: u32,
    pub count: usize,
    pub first: [u32; 16],
    pub size: [u32; 16],
}

// The same with first ticks and lengths in columns of any length, which are lent.
#[derive(Clone, Copy)]
pub struct SupplySlices<'a> {
    pub framed: bool,
    pub ticks: u32,
    pub per: u32,
    pub count: usize,
    pub first: &'a [u32],
    pub size: &'a [u32],
}

// Window k of a frame passed as numbers.
fn window_at(row: &[u32], k: usize) -> Window
    requires { k < 16 }
    ensures { result ≡ window_at row.now k }
{
    let first = number_at(row, 2 * k + 2);
    let length = number_at(row, 2 * k + 3);
    Window {
        first: first,
        length: length,
    }
}

// The windows of a frame passed as numbers.
fn windows_from(row: &[u32]) -> [Window; 16]
    ensures { result ≡ model_series.table (window_at row.now) 16 }
{
    let none = Window {
        first: 0,
        length: 0,
    };
    let mut windows = [none; 16];
    for k in 0..16 {
        let w = window_at(row, k);
        windows[k] = w;
    }
    windows
}

// The frame of a row of numbers: its ticks, its count, then first tick and length of each window. Numbers past the end count as 0; an empty row is no frame.
pub fn frame_from(row: &[u32]) -> Option<Frame>
    ensures { result ≡ frame_from row.now }
{
    if row.len() == 0 {
        return None;
    }
    let ticks = number_at(row, 0);
    let count = number_at(row, 1);
    let windows = windows_from(row);
    Some(Frame {
        ticks,
        count: count as usize,
        windows,
    })
}

// Whether a window is within the rules, given the least first tick and the frame's ticks.
fn is_allowed(low: u32, w: Window, ticks: u32) -> bool
    ensures { result ≡ allowed low w.first w.length ticks }
{
    if w.first < low {
        return false;
    }
    if w.length < 1 {
        return false;
    }
    if u64::from(ticks) < u64::from(w.first) + u64::from(w.length) {
        return false;
    }
    true
}

// The check of a frame that is there: 18 at the frame, at the count, then at the first window outside the rules.
fn check_windows(f: Frame) -> Result<(), Refusal>
    ensures { refusal_in result ≡ check_windows (windows_of f) }
{
    let ticks = f.ticks;
    let count = f.count;
    if ticks < 1 {
        return Err(Refusal {
            reason: Reason::Frame,
            place: 17,
        });
    }
    if 10000 < ticks {
        return Err(Refusal {
            reason: Reason::Frame,
            place: 17,
        });
    }
    if count < 1 {
        return Err(Refusal {
            reason: Reason::Frame,
            place: 16,
        });
    }
    if 16 < count {
        return Err(Refusal {
            reason: Reason::Frame,
            place: 16,
        });
    }
    let mut low: u32 = 0;
    for k in 0..count {
        let w = f.windows[k];
        if !is_allowed(low, w, ticks) {
            return Err(Refusal {
                reason: Reason::Frame,
                place: k,
            });
        }
        low = w.first + w.length + 1;
    }
    Ok(())
}

// The check of a frame: 18; no frame is fine.
pub fn check(f: Option<Frame>) -> Result<(), Refusal>
    ensures { refusal_in result ≡ check_frame (frame_of f) }
{
    match f {
        None => Ok(()),
        Some(frame) => check_windows(frame),
    }
}

// The check of a sheet with a frame: 5, 4, 6 and 17 by task, then 18.
pub fn check_sheet(s: TaskSet, f: Option<Frame>) -> Result<(), Refusal>
    ensures { refusal_in result ≡ check_tasks (framed_of s f) }
{
    taskset::check(s)?;
    check(f)
}

// The columns of the windows of a frame, with our ticks of it.
fn columns_of(f: Frame) -> Supply
    requires { model_frame.InRules (windows_of f) }
    ensures { Prepared (Some f) result }
{
    let count = f.count;
    let mut per: u32 = 0;
    let mut first: [u32; 16] = [0; 16];
    let mut size: [u32; 16] = [0; 16];
    for k in 0..count {
        let w = f.windows[k];
        per += w.length;
        first[k] = w.first;
        size[k] = w.length;
    }
    Supply {
        framed: true,
        ticks: f.ticks,
        per,
        count,
        first,
        size,
    }
}

// What the functions over columns need of a frame, worked out once. Slots past the windows are 0.
pub fn supply_of(f: Option<Frame>) -> Supply
    requires { Ruled (frame_of f) }
    ensures { Prepared f result }
{
    match f {
        Some(frame) => columns_of(frame),
        None => Supply {
            framed: false,
            ticks: 0,
            per: 0,
            count: 0,
            first: [0; 16],
            size: [0; 16],
        },
    }
}

// The ticks of a window among the first x of the frame.
fn part_of(first: u32, size: u32, x: u32) -> u32
    ensures { result ≡ min (x - first) size }
{
    if x <= first {
        return 0;
    }
    let past = x - first;
    if past < size {
        return past;
    }
    size
}

// Whether a tick of the frame lies in a window.
fn in_window(first: u32, size: u32, x: u32) -> bool
    ensures { result ≡ (leb first x && ltb x (first + size)) }
{
    if x < first {
        return false;
    }
    x - first < size
}

impl SupplySlices<'_> {
    // The ticks of windows among the first x of the frame.
    pub fn within(&self, x: u32) -> u32
        requires { HasWindows (supply_lent self.now) }
        ensures { IsWithin self.now.first.now self.now.size.now self.now.count x result }
    {
        let mut sum: u32 = 0;
        for k in 0..self.count {
            sum += part_of(self.first[k], self.size[k], x);
        }
        sum
    }

    // The ticks of a frame up to tick r of its windows, that tick included.
    fn locate(&self, r: u32) -> u32
        requires windows { HasWindows (supply_lent self.now) }
        requires le_r { 1 ≤ r }
        requires r_bound { r ≤ model_series.sum (column self.now.size.now) self.now.count }
        ensures { Located self.now.first.now self.now.size.now self.now.count r result }
    {
        let mut left = r;
        for k in 0..self.count {
            let length = self.size[k];
            if left <= length {
                return self.first[k] + left;
            }
            left -= length;
        }
        0
    }

    // Our ticks among the first t.
    pub fn our_ticks(&self, t: u64) -> u64
        requires { IsSupply (supply_lent self.now) }
        ensures { result ≡ model_frame.supply (model_frame.ours_in (frame_in (supply_lent self.now))) 0 t }
    {
        if !self.framed {
            return t;
        }
        let length = u64::from(self.ticks);
        let rest = self.within((t % length) as u32);
        t / length * u64::from(self.per) + u64::from(rest)
    }

    // The least number of ticks from a place of the frame among which d are ours, given the ticks of windows before the place.
    pub fn reach_from(&self, at: u32, before: u32, d: u64) -> u64
        requires supplies { IsSupply (supply_lent self.now) }
        requires begins { BeginsAt (supply_lent self.now) at before }
        requires d_le_max_tick { d ≤ max_tick }
        ensures { IsReach (model_frame.ours_in (frame_in (supply_lent self.now))) at d result }
    {
        if !self.framed {
            return d;
        }
        if d == 0 {
            return 0;
        }
        let each = u64::from(self.per);
        let past = u64::from(before) + d - 1;
        let x = self.locate((past % each) as u32 + 1);
        past / each * u64::from(self.ticks) + u64::from(x) - u64::from(at)
    }

    // The least number of ticks from t on among which d are ours.
    pub fn reach(&self, t: u64, d: u64) -> u64
        requires supplies { IsSupply (supply_lent self.now) }
        requires d_le_max_tick { d ≤ max_tick }
        ensures { IsReach (model_frame.ours_in (frame_in (supply_lent self.now))) t d result }
    {
        if !self.framed {
            return d;
        }
        let at = (t % u64::from(self.ticks)) as u32;
        let before = self.within(at);
        self.reach_from(at, before, d)
    }

    // The number of starts that the search needs: one where there is no frame.
    pub fn starts(&self) -> usize
        ensures { (ticks : ℕ) (first size : List ℕ) → result ≡ starts_of (column_frame self.now.framed ticks self.now.count first size) }
    {
        if !self.framed {
            return 1;
        }
        self.count
    }

    // Start k: the place in the frame after window k.
    pub fn start_of(&self, k: usize) -> u32
        requires frame_columns { HasColumns (supply_lent self.now) }
        requires k_bound { k < starts_of (frame_in (supply_lent self.now)) }
        ensures { result ≡ start_at (frame_in (supply_lent self.now)) k }
    {
        if !self.framed {
            return 0;
        }
        (self.first[k] + self.size[k]) % self.ticks
    }

    // Whether a tick of the frame lies in one of its windows.
    fn in_some(&self, x: u32) -> bool
        requires { HasWindows (supply_lent self.now) }
        ensures { (ticks : ℕ) → result ≡ model_frame.in_some (column_windows ticks self.now.count self.now.first.now self.now.size.now) self.now.count x }
    {
        for k in 0..self.count {
            if in_window(self.first[k], self.size[k], x) {
                return true;
            }
        }
        false
    }

    // Whether tick t is ours.
    pub fn is_ours(&self, t: u64) -> bool
        requires { HasColumns (supply_lent self.now) }
        ensures { result ≡ model_frame.ours_in (frame_in (supply_lent self.now)) t }
    {
        if !self.framed {
            return true;
        }
        self.in_some((t % u64::from(self.ticks)) as u32)
    }
}

impl Supply {
    // The same with its columns lent.
    pub fn slices(&self) -> SupplySlices<'_>
        ensures { supply_lent result ≡ self.now }
    {
        SupplySlices {
            framed: self.framed,
            ticks: self.ticks,
            per: self.per,
            count: self.count,
            first: &self.first,
            size: &self.size,
        }
    }

    // The ticks of windows among the first x of the frame.
    pub fn within(&self, x: u32) -> u32
        requires { HasWindows self.now }
        ensures { IsWithin self.now.first self.now.size self.now.count x result }
    {
        self.slices().within(x)
    }

    // Our ticks among the first t.
    pub fn our_ticks(&self, t: u64) -> u64
        requires { IsSupply self.now }
        ensures { result ≡ model_frame.supply (model_frame.ours_in (frame_in self.now)) 0 t }
    {
        self.slices().our_ticks(t)
    }

    // The least number of ticks from a place of the frame among which d are ours, given the ticks of windows before the place.
    pub fn reach_from(&self, at: u32, before: u32, d: u64) -> u64
        requires supplies { IsSupply self.now }
        requires begins { BeginsAt self.now at before }
        requires d_le_max_tick { d ≤ max_tick }
        ensures { IsReach (model_frame.ours_in (frame_in self.now)) at d result }
    {
        self.slices().reach_from(at, before, d)
    }

    // The least number of ticks from t on among which d are ours.
    pub fn reach(&self, t: u64, d: u64) -> u64
        requires supplies { IsSupply self.now }
        requires d_le_max_tick { d ≤ max_tick }
        ensures { IsReach (model_frame.ours_in (frame_in self.now)) t d result }
    {
        self.slices().reach(t, d)
    }

    // The number of starts that the search needs: one where there is no frame.
    pub fn starts(&self) -> usize
        ensures { result ≡ starts_of (frame_in self.now) }
    {
        self.slices().starts()
    }

    // Start k: the place in the frame after window k.
    pub fn start_of(&self, k: usize) -> u32
        requires frame_columns { HasColumns self.now }
        requires k_bound { k < starts_of (frame_in self.now) }
        ensures { result ≡ start_at (frame_in self.now) k }
    {
        self.slices().start_of(k)
    }

    // Whether tick t is ours.
    pub fn is_ours(&self, t: u64) -> bool
        requires { HasColumns self.now }
        ensures { result ≡ model_frame.ours_in (frame_in self.now) t }
    {
        self.slices().is_ours(t)
    }
}
