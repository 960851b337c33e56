// Finds the last recorded instant at or before a wanted one, by halving (paper 02, request 1).
#![tactic(auto)]

ghost use Rattle.std.specs.Prelude.{◌≡◌, ◌≤◌, List, ℕ, length, get_or};
ghost use Rattle.lookup.specs.Answer.{Halved};
ghost use Rattle.lookup.specs.Promise.{FindPromise};

use base::refusal::Refusal;

#[cfg(test)]
mod tests;

// Where the instant stands among the instants, or that none does; and how many were looked at.
#[derive(Clone, Copy, Debug, PartialEq, Eq)]
pub struct Found {
    pub place: Option<usize>,
    pub looks: usize,
}

// As many instants as a list may have.
pub const MOST_INSTANTS: usize = 100_000;

// The last place whose instant is at most `wanted`; of a list that does not rise, the place that
// halving comes to. Refused 12: more than 100,000 instants.
pub fn find(instants: &[u64], wanted: u64) -> Result<Found, Refusal>
    ensures { FindPromise instants.now wanted result }
{
    if MOST_INSTANTS < instants.len() {
        return Err(Refusal::ListTooLong);
    }
    Ok(halve(instants, wanted))
}

// Where `low` and `high` meet, the place is the one before. `lookup_bytes` has the same walk over
// bytes: one over a trait of both would test at each look whether its place is there, or ask it of a
// public function's callers.
fn halve(instants: &[u64], wanted: u64) -> Found
    requires { length instants.now ≤ 100000 }
    ensures { Halved instants.now wanted result }
{
    let mut low = 0;
    let mut high = instants.len();
    let mut looks = 0;
    while low < high {
        let half = (low + high) / 2;
        if instants[half] <= wanted {
            low = half + 1;
        } else {
            high = half;
        }
        looks += 1;
    }
    Found {
        place: low.checked_sub(1),
        looks,
    }
}

// ---- among instants that are kept in another way

// Instants, however they are kept.
pub trait Instants {
    // They, in order.
    ghost items: { Self → List ℕ };

    fn count(&self) -> usize
        ensures { result ≡ length (items self.now) };

    // The instant at a place; 0 past the end.
    fn instant(&self, place: usize) -> u64
        ensures { result ≡ get_or (items self.now) place 0 };
}

// A list of numbers is one way.
impl<'a> Instants for &'a [u64] {
    ghost items = { λ s. s.now };

    fn count(&self) -> usize {
        self.len()
    }

    fn instant(&self, place: usize) -> u64 {
        self.get(place).copied().unwrap_or(0)
    }
}

// The answer of `find` on these instants. Each look tests whether its place is there, so `find` and
// `lookup_bytes::find` have walks of their own.
pub fn find_among<I: Instants>(instants: &I, wanted: u64) -> Result<Found, Refusal>
    ensures { FindPromise (I.items instants.now) wanted result }
{
    let count = instants.count();
    if MOST_INSTANTS < count {
        return Err(Refusal::ListTooLong);
    }
    Ok(halve_among(instants, wanted))
}

// The walk of `halve`.
fn halve_among<I: Instants>(instants: &I, wanted: u64) -> Found
    requires { length (I.items instants.now) ≤ 100000 }
    ensures { Halved (I.items instants.now) wanted result }
{
    let mut low = 0;
    let mut high = instants.count();
    let mut looks = 0;
    while low < high {
        let half = (low + high) / 2;
        if instants.instant(half) <= wanted {
            low = half + 1;
        } else {
            high = half;
        }
        looks += 1;
    }
    let place = low.checked_sub(1);
    Found { place, looks }
}
