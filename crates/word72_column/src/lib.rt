// The column of a major frame (paper 01, "Word 72 and its items"; paper 02, request 4): how word 72 is gathered into it, and what tells its
// kind.
#![tactic(auto)]

ghost use Rattle.std.specs.Prelude.{◌≡◌, true, length};
ghost use Rattle.base.specs.Refusals.{permitted, number_of};
ghost use Rattle.time_code.specs.Calendar.{in_span};
ghost use Rattle.time_code.specs.Fields.{is_time};
ghost use Rattle.word72_column.specs.Columns.{gathered, gather_lines, all_hold, identifier_of};
ghost use Rattle.word72_column.specs.Promise.{GatherPromise, KindPromise};

use base::format;
use base::refusal::Refusal;
use time_code::year;
use word72_items::PLACES;

// The place of the subcommutated word in a minor frame.
const WORD: usize = 72;

// How far the next minor frame's word lies.
const STEP: usize = format::MINOR_FRAME;

// A column of the kinds 1 to 3 bears its identifier at places 96 to 103 (DFCB table 14), one of kind 0 a time code at places 96 to 102
// (DFCB table 12).
const MARK: usize = 96;

const TIME_END: usize = 103;

const IDENTIFIER_END: usize = 104;

// Puts word 72 of each minor frame of a major frame into the column. Refused 2: the area is not 16,384 bytes, or the column is not 128;
// then nothing is written.
pub fn gather(area: &[u8], column: &mut [u8]) -> Result<(), Refusal>
    ensures answer { result ≡ permitted (gather_lines area.now column.old) }
    ensures promise { GatherPromise area.now column.old column.new (number_of result) }
{
    if area.len() != format::MAJOR_FRAME {
        return Err(Refusal::WrongLength);
    }
    if column.len() != PLACES {
        return Err(Refusal::WrongLength);
    }
    put_words(area, column);
    Ok(())
}

// The kind of a column recorded in a year: the identifier that it bears, or 0 where it has a time code of that year. Refused 2: not 128
// bytes. Refused 13: the year is outside 1999 to 2099. Refused 6: neither.
pub fn kind(year: u64, column: &[u8]) -> Result<u64, Refusal>
    ensures { KindPromise year column.now result }
{
    if column.len() != PLACES {
        return Err(Refusal::WrongLength);
    }
    if !year::in_span(year) {
        return Err(Refusal::YearOutsideSpan);
    }
    let identifier = identifier(&column[MARK..IDENTIFIER_END]);
    if identifier != 0 {
        return Ok(identifier);
    }
    if is_time(year, &column[MARK..TIME_END]) {
        return Ok(0);
    }
    Err(Refusal::NoSuchKind)
}

// Word 72 of each minor frame, found by steps (paper 02, request 3).
fn put_words(area: &[u8], column: &mut [u8])
    requires { (length area.now ≡ 16384) × (length column.old ≡ 128) }
    ensures { column.new ≡ gathered area.now }
{
    let mut at = WORD;
    for frame in 0..PLACES {
        column[frame] = area[at];
        at += STEP;
    }
}

fn all_hold(bytes: &[u8], b: u8) -> bool
    ensures { result ≡ all_hold b bytes.now }
{
    bytes.iter().all(|&byte| byte == b)
}

// The identifier 1, 2 or 3 that all of the bytes hold; 0 where there is none.
#[tactic(auto, unfolding(crate::specs::Columns::identifier_of))]
fn identifier(bytes: &[u8]) -> u64
    ensures { result ≡ identifier_of bytes.now }
{
    if all_hold(bytes, 1) {
        return 1;
    }
    if all_hold(bytes, 2) {
        return 2;
    }
    if all_hold(bytes, 3) {
        return 3;
    }
    0
}

// Whether seven bytes are a good time code of the year.
fn is_time(year: u64, bytes: &[u8]) -> bool
    requires { (length bytes.now ≡ 7) × (in_span year ≡ true) }
    ensures { result ≡ is_time year bytes.now }
{
    time_code::decode(year, bytes).is_ok()
}
