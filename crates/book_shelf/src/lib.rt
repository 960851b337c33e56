// What is gathered for a book: a cycle is added where its instant rises, and left out else.
#![tactic(auto)]

ghost use Rattle.std.specs.Prelude.{◌≡◌};
ghost use Rattle.book_shelf.specs.Shelves.{EndPromise, rises_above, left_out, added_to};

// What is gathered: how many cycles, the instant of the last, how many frames were read; whether more may come, whether every cycle is among them and
// nothing was cut off, and whether standard input could not be read.
#[derive(Clone, Copy)]
pub struct Shelf {
    pub cycles: usize,
    pub last: u64,
    pub frames: u64,
    pub more: bool,
    pub all: bool,
    pub failed: bool,
}

// Nothing is gathered yet.
pub fn begun() -> Shelf
    ensures { result.cycles ≡ 0 }
{
    Shelf {
        cycles: 0,
        last: 0,
        frames: 0,
        more: true,
        all: true,
        failed: false,
    }
}

// Standard input has no cycle more.
pub fn ended(s: Shelf, frames: u64, cut: bool, failed: bool) -> Shelf
    ensures { EndPromise s result }
{
    let mut r = s;
    r.frames = frames;
    r.more = false;
    r.failed = failed;
    if cut {
        r.all = false;
    }
    r
}

// A cycle is left out.
pub fn left_out(s: Shelf, frames: u64) -> Shelf
    ensures { result ≡ left_out s frames }
{
    Shelf {
        cycles: s.cycles,
        last: s.last,
        frames: frames,
        more: true,
        all: false,
        failed: false,
    }
}

// A cycle is added, of this instant: so many there are now.
pub fn added(s: Shelf, cycles: usize, frames: u64, instant: u64) -> Shelf
    ensures { result ≡ added_to s cycles frames instant }
{
    Shelf {
        cycles: cycles,
        last: instant,
        frames: frames,
        more: true,
        all: s.all,
        failed: false,
    }
}

// Whether a cycle is the first, or later than the last that is gathered.
pub fn rises(s: Shelf, instant: u64) -> bool
    ensures { result ≡ rises_above s instant }
{
    if s.cycles == 0 {
        return true;
    }
    s.last < instant
}
