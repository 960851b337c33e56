// From minor to major frames: what a closed frame does to the run and to the area.
ghost use Rattle.std.specs.Prelude.{◌≡◌, ◌+◌, ◌≤◌, length};
ghost use Rattle.std.proofs.Math.Seq.{paste};
ghost use Rattle.base.specs.Format.{minor_frame};
ghost use Rattle.labelling.specs.Machine.{good_event, interrupts};
ghost use Rattle.order.specs.Room.{RunsRoom};
ghost use Rattle.layer_steps.specs.Shapes.{Lent, Counted, EndPromise};

use base::format::{MAJOR_FRAME, MINOR_FRAME, NUMBER_PLACE};
use labelling::{FrameClass, Runs};

// The number of the minor frame that completes a major frame.
const LAST_NUMBER: u64 = (MAJOR_FRAME / MINOR_FRAME) as u64 - 1;

#[derive(Clone, Copy, Debug, PartialEq, Eq)]
pub struct Ended {
    pub runs: Runs,
    pub complete: bool,
}

// Copies a minor frame into the area.
fn put(area: &mut [u8], at: usize, frame: &[u8; 128])
    requires { (at + minor_frame ≤ length area.old) × (length frame.now ≡ minor_frame) }
    ensures { area.new ≡ paste area.old at frame.now minor_frame }
{
    area[at..at + MINOR_FRAME].copy_from_slice(frame);
}

// The counts after a good frame numbered n: it continues the run, starts one, or stands alone.
fn after_good(r: Runs, n: u64) -> Ended
    requires { RunsRoom r }
    ensures { Counted (good_event n r.building) r result }
{
    let mut next = r;
    if n == r.building {
        if n < LAST_NUMBER {
            next.building += 1;
            return Ended {
                runs: next,
                complete: false,
            };
        }
        next.majors += 1;
        next.building = 0;
        return Ended {
            runs: next,
            complete: true,
        };
    }
    next.broken += r.building;
    if n == 0 {
        next.building = 1;
        return Ended {
            runs: next,
            complete: false,
        };
    }
    next.loose += 1;
    next.building = 0;
    Ended {
        runs: next,
        complete: false,
    }
}

// The counts after any other frame: it ends the run.
fn after_other(r: Runs) -> Ended
    requires { RunsRoom r }
    ensures { Counted interrupts r result }
{
    let mut next = r;
    next.broken += r.building;
    next.building = 0;
    Ended {
        runs: next,
        complete: false,
    }
}

// A good frame. One that continues or starts a run is put at its place in the area.
fn end_good(r: Runs, frame: &[u8; 128], area: &mut [u8]) -> Ended
    requires runs_room { RunsRoom r }
    requires lent { Lent frame.now area.old }
    ensures { EndPromise r FrameClass.Good frame.now area.old area.new result }
{
    let n = u64::from(frame[NUMBER_PLACE]);
    if (n != r.building) & (n != 0) {
        return after_good(r, n);
    }
    put(area, MINOR_FRAME * n as usize, frame);
    after_good(r, n)
}

// A closed frame.
pub fn end_frame(r: Runs, class: FrameClass, frame: &[u8; 128], area: &mut [u8]) -> Ended
    requires runs_room { RunsRoom r }
    requires lent { Lent frame.now area.old }
    ensures { EndPromise r class frame.now area.old area.new result }
{
    match class {
        FrameClass::Good => end_good(r, frame, area),
        FrameClass::Damaged | FrameClass::Unsynced => after_other(r),
    }
}
