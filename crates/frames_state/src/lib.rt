// How the reading of a reel and the writing of its frames stand: a leaf for `pcd_frames`.
#![tactic(auto)]

ghost use Rattle.std.specs.Prelude.{◌≡◌, ◌+◌};
ghost use Rattle.frames_state.specs.Frames.{SameReel};

use reel_state::Reel;

// What a line on a terminal needs to know.
#[derive(Clone, Copy)]
pub struct Progress {
    // Whether standard error is a terminal.
    pub terminal: bool,
    // When the reading began, and when the line was last written, in seconds.
    pub began: u64,
    pub shown: u64,
}

// How the reading and the writing stand.
#[derive(Clone, Copy)]
pub struct State {
    pub reel: Reel,
    // How many major frames were written.
    pub written: u64,
    // How many shifts have begun, and from which byte on the next one is.
    pub begun: usize,
    pub next: u64,
    // Whether all was done so far, and whether the reading goes on.
    pub done: bool,
    pub goes_on: bool,
    pub progress: Progress,
}

// A major frame is complete, and went to standard output, or could not. No more are counted than there are.
pub fn wrote(s: State, shown: bool) -> State
    ensures { s.written + 1 ≡ s.reel.frames → (result.reel ≡ s.reel) × (result.written ≡ s.reel.frames) }
{
    let mut r = s;
    r.done = s.done & shown;
    r.goes_on = shown;
    if s.reel.frames <= s.written {
        return r;
    }
    r.written = s.written + 1;
    r
}

// The reel has ended.
pub fn ended(s: State) -> State
    ensures { SameReel s result }
{
    let mut r = s;
    r.goes_on = false;
    r
}

// Something could not be done.
pub fn undone(s: State) -> State
    ensures { SameReel s result }
{
    let mut r = s;
    r.done = false;
    r
}
