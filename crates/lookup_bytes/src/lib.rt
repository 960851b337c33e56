// Finds an instant among instants that come as bytes, eight each, the first byte highest (paper 02,
// request 14). There is no room to make a list of numbers of them, so each instant is read where it
// stands; the rule is that of `lookup::find`.
#![tactic(auto)]

ghost use Rattle.std.specs.Prelude.{◌≡◌, ◌+◌, ◌*◌, ◌%◌, ◌^◌, ◌≤◌, ◌<◌, length, get_or};
ghost use Rattle.lookup.specs.Answer.{Halved};
ghost use Rattle.lookup_bytes.specs.Promise.{instants_in, FourRead, FindPromise};

use base::refusal::Refusal;
use lookup::Found;

// The bytes of an instant.
const WIDTH: usize = 8;

// The answer of `lookup::find` on the instants that the bytes are. Refused 2: no whole number of
// instants. Refused 12: more than 100,000.
pub fn find(instants: &[u8], wanted: u64) -> Result<Found, Refusal>
    ensures { FindPromise instants.now wanted result }
{
    if instants.len() % WIDTH != 0 {
        return Err(Refusal::WrongLength);
    }
    if lookup::MOST_INSTANTS < instants.len() / WIDTH {
        return Err(Refusal::ListTooLong);
    }
    Ok(halve(instants, wanted))
}

// Each turn is one of the rule that `lookup::find` goes by.
fn halve(instants: &[u8], wanted: u64) -> Found
    requires { (length instants.now % 8 ≡ 0) × (length instants.now ≤ 800000) }
    ensures { Halved (instants_in instants.now) wanted result }
{
    let mut low = 0;
    let mut high = instants.len() / WIDTH;
    let mut looks = 0;
    while low < high {
        let half = (low + high) / 2;
        if instant_at(instants, half) <= wanted {
            low = half + 1;
        } else {
            high = half;
        }
        looks += 1;
    }
    Found {
        place: low.checked_sub(1),
        looks,
    }
}

// It is read in two halves, each a sum from its lowest byte on, so that the eight bytes are compiled
// to one load.
fn instant_at(bytes: &[u8], place: usize) -> u64
    requires { place < length (instants_in bytes.now) }
    ensures { result ≡ get_or (instants_in bytes.now) place 0 }
{
    let at = WIDTH * place;
    four(bytes, at + 4) + 0x1_0000_0000 * four(bytes, at)
}

// The number that four bytes are.
fn four(bytes: &[u8], at: usize) -> u64
    requires { at + 4 ≤ length bytes.now }
    ensures { FourRead bytes.now at result }
{
    number(bytes[at], bytes[at + 1], bytes[at + 2], bytes[at + 3])
}

// The number with these digits to the base 256, the first one highest.
fn number(b0: u8, b1: u8, b2: u8, b3: u8) -> u64
    ensures { (result ≡ b0 * 2 ^ 24 + b1 * 2 ^ 16 + b2 * 2 ^ 8 + b3) × (result < 2 ^ 32) }
{
    u64::from(b3) + 0x100 * u64::from(b2) + 0x1_0000 * u64::from(b1) + 0x100_0000 * u64::from(b0)
}
