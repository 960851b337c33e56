// The constant tables, looked up.
ghost use Rattle.std.specs.Prelude.{◌≡◌, ◌+◌, ◌≤◌, ◌<◌};
ghost use Rattle.word72_items.specs.ItemTable.{count_of_items, items};
ghost use Rattle.word72_items.specs.CodeTables.{forms, form_of, form_at, Sought};

use crate::{Form, PLACES};

const LAST_PLACE: usize = 127;

// The first place of a kind whose item number is `number` or more; 128 where there is none. Numbers never fall.
pub(crate) fn seek(table: &[u8; 512], kind: usize, number: u64) -> usize
    requires { (kind ≤ 3) × (table.now ≡ items) }
    ensures { Sought kind number result }
{
    let row = &table[PLACES * kind..PLACES * (kind + 1)];
    row.partition_point(|&n| u64::from(n) < number)
}

// The number of a kind's last item.
pub(crate) fn last_number(table: &[u8; 512], kind: usize) -> u64
    requires { (kind ≤ 3) × (table.now ≡ items) }
    ensures { (result + 1 ≡ count_of_items kind) × (result < 256) }
{
    u64::from(table[PLACES * kind + LAST_PLACE])
}

// The form of the item at a place.
pub(crate) fn form_at(table: &[u8; 512], kind: usize, place: usize) -> Form
    requires { (kind ≤ 3) × (place < 128) × (table.now ≡ forms) }
    ensures { result ≡ form_at kind place }
{
    form_of(table[PLACES * kind + place])
}

fn form_of(letter: u8) -> Form
    ensures { result ≡ form_of letter }
{
    match letter {
        b'c' => Form::Count,
        b'w' => Form::TwelveBit,
        b'f' => Form::Flags,
        b'n' => Form::Number,
        b't' => Form::Time,
        _ => Form::Fill,
    }
}
