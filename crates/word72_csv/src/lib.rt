// The items of word 72 as lines of comma-separated values: the frame, the kind, the item, its first place and its length, its form, the book's
// description, the value; of a time code the spacecraft and the time; and of a refusal its number and what it means.
#![tactic(auto)]

mod value;

ghost use Rattle.std.specs.Prelude.{◌≡◌};
ghost use Rattle.std.specs.Result.{result_unwrap_or};
ghost use Rattle.base.specs.Refusals.{number};
ghost use Rattle.word72_items.specs.Answers.{counted};
ghost use Rattle.command.specs.Text.{Adds};
ghost use Rattle.word72_csv.specs.ItemLines.{frame_text, item_lines, item_line, place_text, form_text, form_line, refused_frame};

use base::refusal::Refusal;
use command::{put, put_number};
use csv_fields::put_number_field;
use subcom::{Form, Item};

// The names of the fields.
pub const HEADER: [u8; 90] =
    *b"frame,kind,item,first,length,form,description,value,spacecraft,time,refusal,refusal_means\n";

// The form's words, by its number.
const FORMS: [u8; 54] = *b"\
,count,
,12-bit count,
,flags,
,number,
,time,
,fill,
";

// Puts the lines of the items of a frame's column, recorded in a year; frames are counted from 0. Of a column of no kind there is one line, with
// the refusal. A line has fewer than 1,000 bytes and no kind more than 62 items: 65,536 bytes are room enough.
pub fn put_frame(out: &mut [u8], year: u64, frame: u64, column: &[u8]) -> usize
    ensures { Adds out.old 0 (frame_text year frame column.now) out.new result }
{
    match subcom::kind(year, column) {
        Ok(kind) => put_items(out, year, frame, column, kind),
        Err(refusal) => put_refused_frame(out, 0, frame, refusal),
    }
}

// The items of a kind, in order; none where there is no such kind.
fn put_items(out: &mut [u8], year: u64, frame: u64, column: &[u8], kind: u64) -> usize
    ensures { Adds out.old 0 (item_lines year frame column.now kind (result_unwrap_or (counted kind) 0)) out.new result }
{
    let count = subcom::item_count(kind).unwrap_or(0);
    let mut end = 0;
    for item in 0..count {
        end = put_item(&mut *out, end, year, frame, column, kind, item);
    }
    end
}

// The line of an item; of a kind or an item that is none it is that of a refused frame.
fn put_item(
    out: &mut [u8],
    at: usize,
    year: u64,
    frame: u64,
    column: &[u8],
    kind: u64,
    item: u64,
) -> usize
    ensures { Adds out.old at (item_line year frame column.now kind item) out.new result }
{
    match subcom::describe(kind, item) {
        Ok(found) => {
            let placed = put_place(&mut *out, at, frame, kind, item, found);
            let formed = put_form(&mut *out, placed, found.form);
            let described = word72_descriptions::put_description(&mut *out, formed, kind, item);
            let reading = subcom::read(year, column, kind, item);
            let bytes = subcom::part(column, kind, item);
            value::put_reading(out, described, year, reading, bytes)
        }
        Err(refusal) => put_refused_frame(out, at, frame, refusal),
    }
}

// The line of a frame that has no items, with the refusal of its kind.
fn put_refused_frame(out: &mut [u8], at: usize, frame: u64, refusal: Refusal) -> usize
    ensures { Adds out.old at (refused_frame frame (number refusal)) out.new result }
{
    let counted = put_number(&mut *out, at, frame);
    let none = put(&mut *out, counted, b",,,,,,");
    value::put_refused(out, none, refusal)
}

// Where an item lies.
fn put_place(out: &mut [u8], at: usize, frame: u64, kind: u64, item: u64, found: Item) -> usize
    ensures { Adds out.old at (place_text frame kind item found) out.new result }
{
    let a = put_number(&mut *out, at, frame);
    let b = put_number_field(&mut *out, a, kind);
    let c = put_number_field(&mut *out, b, item);
    let d = put_number_field(&mut *out, c, found.first as u64);
    put_number_field(out, d, found.length as u64)
}

// A form in a word, between commas.
fn put_form(out: &mut [u8], at: usize, form: Form) -> usize
    ensures { Adds out.old at (form_text form) out.new result }
{
    let table = &FORMS;
    put(out, at, command::line(table, form_line(form)))
}

// The line of a form's word, which is its number.
fn form_line(form: Form) -> usize
    ensures { result ≡ form_line form }
{
    form as usize
}
