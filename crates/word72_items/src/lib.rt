// The items of subcommutated word 72 (paper 01, "Word 72 and its items"): what each item of a kind is, and how many a kind has. The
// items are those of tables 17 to 20 of the DFCB, written out in specs/Layout.antt.
#![tactic(auto)]

mod search;
mod tables;

ghost use Rattle.std.specs.Prelude.{◌≡◌};
ghost use Rattle.word72_items.specs.Promise.{CountPromise, DescribePromise};

use base::refusal::Refusal;

// The places of a column, one for each minor frame of a major frame.
pub const PLACES: usize = 128;

// The last of the kinds 0 to 3.
const LAST_KIND: u64 = 3;

// How an item's bytes are read. As a number it is what include/pcd.h gives the form.
#[derive(Clone, Copy, Debug, PartialEq, Eq)]
pub enum Form {
    Count = 0,
    TwelveBit = 1,
    Flags = 2,
    Number = 3,
    Time = 4,
    Fill = 5,
}

// What an item is: how it is read, its first place in the column, and how many places it has.
#[derive(Clone, Copy, Debug, PartialEq, Eq)]
pub struct Item {
    pub form: Form,
    pub first: usize,
    pub length: usize,
}

// How many items a kind has. Refused 6: the kind is above 3.
pub fn item_count(kind: u64) -> Result<u64, Refusal>
    ensures { CountPromise kind result }
{
    if LAST_KIND < kind {
        return Err(Refusal::NoSuchKind);
    }
    let table = &tables::ITEMS;
    Ok(search::last_number(table, kind as usize) + 1)
}

// What an item is: its form, its first place and its length. Refused 6: the kind is above 3. Refused 7: it has no such item.
pub fn describe(kind: u64, item: u64) -> Result<Item, Refusal>
    ensures { DescribePromise kind item result }
{
    if LAST_KIND < kind {
        return Err(Refusal::NoSuchKind);
    }
    let row = kind as usize;
    let table = &tables::ITEMS;
    let first = search::seek(table, row, item);
    if first == PLACES {
        return Err(Refusal::NoSuchItem);
    }
    let end = search::seek(table, row, item + 1);
    let form = search::form_at(&tables::FORMS, row, first);
    Ok(Item {
        form,
        first,
        length: end - first,
    })
}
