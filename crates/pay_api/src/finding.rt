// The lookup of an instant among instants that come as bytes.
ghost use Rattle.std.specs.Prelude.{◌≡◌};
ghost use Rattle.pay_api.specs.Entries.{Halves, halves_of, FindAnswer};

use crate::answers;
use lookup::Found;

// The upper half of a result begins at this weight.
const UPPER: u64 = 1 << 32;

// The last of the instants at or before the wanted one: its place plus one in the upper half, 0 for
// none, and the entries looked at in the lower. Refused: 2, no whole number of instants; 12, more
// than 100,000.
pub fn pcd_pay_find(instants: &[u8], wanted: u64, answer: &mut [u8]) -> u8
    ensures { FindAnswer instants.now wanted result answer.old answer.new }
{
    match lookup_bytes::find(instants, wanted) {
        Ok(found) => answers::put(Ok(halves(found)), answer),
        Err(refusal) => answers::put(Err(refusal), answer),
    }
}

// The place plus one above the looks.
fn halves(found: Found) -> u64
    requires { Halves found.place found.looks }
    ensures { result ≡ halves_of found.place found.looks }
{
    match found.place {
        Some(place) => (place as u64 + 1) * UPPER + found.looks as u64,
        None => found.looks as u64,
    }
}
