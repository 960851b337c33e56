// Finding an instant. The answer is the number of the refusal, 0 for none; a refusal writes nothing.
ghost use Rattle.book_api.specs.Finding.{FindCrossed};

use lookup::Found;

// The last of the instants at or before the wanted one; `out` gets its place plus one, 0 for none, then the entries looked at.
pub fn pcd_find(instants: &[u64], wanted: u64, out: &mut [u64; 2]) -> u8
    ensures { FindCrossed instants.now wanted result out.old out.new }
{
    match lookup::find(instants, wanted) {
        Ok(
            Found {
                place: Some(place),
                looks,
            },
        ) => {
            *out = [place as u64 + 1, looks as u64];
            0
        }
        Ok(Found { place: None, looks }) => {
            *out = [0, looks as u64];
            0
        }
        Err(refusal) => refusal.number(),
    }
}
