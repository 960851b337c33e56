// A cycle of a book (paper 02, request 7): four major frames of the kinds 0, 1, 2, 3 in order, each minor frame with its sync bytes and its
// number. Its instant is that of its kind 0 column.
#![tactic(auto)]

ghost use Rattle.std.specs.Prelude.{◌≡◌, ◌≤◌, ◌<◌, eqb, length, get_or};
ghost use Rattle.cycle.specs.Cycle.{is_numbered, all_numbered, is_kind, is_major, is_frame, is_cycle, time_bytes, instant_of};

use base::format;

// The bytes of a cycle.
pub const CYCLE: usize = 65_536;

const KINDS: usize = 4;

const MINOR_FRAMES: usize = 128;

// Whether a body is a cycle of this year: 65,536 bytes, four major frames of the kinds 0 to 3.
pub fn is_cycle(year: u64, body: &[u8]) -> bool
    ensures { result ≡ is_cycle year body.now }
{
    if body.len() != CYCLE {
        return false;
    }
    for kind in 0..KINDS {
        let start = format::MAJOR_FRAME * kind;
        let end = start + format::MAJOR_FRAME;
        if !is_major(year, kind, &body[start..end]) {
            return false;
        }
    }
    true
}

// The instant of a body's kind 0 column: what its time code reads as in this year; 0 where that is refused.
pub fn instant(year: u64, body: &[u8]) -> u64
    ensures { result ≡ instant_of year body.now }
{
    let code = time_bytes(body);
    match time_code::decode(year, &code) {
        Ok(t) => t.instant,
        Err(_) => 0,
    }
}

// Whether a major frame is one that a cycle of this year may hold as its frame of this kind: 16,384 bytes, each minor frame with its sync bytes and
// its number, and a column of this kind.
pub fn is_frame(year: u64, kind: u64, frame: &[u8]) -> bool
    ensures { result ≡ is_frame year kind frame.now }
{
    if frame.len() != format::MAJOR_FRAME {
        return false;
    }
    is_major(year, kind as usize, frame)
}

fn is_major(year: u64, kind: usize, frame: &[u8]) -> bool
    requires { length frame.now ≡ 16384 }
    ensures { result ≡ is_major year kind frame.now }
{
    all_numbered(frame) && is_kind(year, kind as u64, frame)
}

fn all_numbered(frame: &[u8]) -> bool
    requires { length frame.now ≡ 16384 }
    ensures { result ≡ all_numbered frame.now }
{
    for number in 0..MINOR_FRAMES {
        let start = format::MINOR_FRAME * number;
        let end = start + format::MINOR_FRAME;
        if !is_numbered(&frame[start..end], number) {
            return false;
        }
    }
    true
}

// Whether a minor frame has its sync bytes and this number.
fn is_numbered(minor: &[u8], number: usize) -> bool
    requires { length minor.now ≡ 128 }
    ensures { result ≡ is_numbered minor.now number }
{
    let synced = (minor[0] == format::SYNC_WORD_0)
        & (minor[1] == format::SYNC_WORD_1)
        & (minor[2] == format::SYNC_WORD_2);
    synced & is_number(minor[format::NUMBER_PLACE], number)
}

fn is_number(b: u8, number: usize) -> bool
    ensures { result ≡ eqb b number }
{
    usize::from(b) == number
}

// Whether the column of a major frame has this kind.
fn is_kind(year: u64, kind: u64, frame: &[u8]) -> bool
    requires { length frame.now ≡ 16384 }
    ensures { result ≡ is_kind year kind frame.now }
{
    let mut column = [0u8; 128];
    // It cannot be refused: both have the lengths that it asks for.
    let _ = word72_column::gather(frame, &mut column);
    match word72_column::kind(year, &column) {
        Ok(found) => found == kind,
        Err(_) => false,
    }
}

// Word 72 of the minor frames 96 to 102 of the first major frame.
fn time_bytes(body: &[u8]) -> [u8; 7]
    ensures { result ≡ time_bytes body.now }
{
    [
        byte_at(body, 12_360),
        byte_at(body, 12_488),
        byte_at(body, 12_616),
        byte_at(body, 12_744),
        byte_at(body, 12_872),
        byte_at(body, 13_000),
        byte_at(body, 13_128),
    ]
}

// A byte, 0 past the end.
fn byte_at(bytes: &[u8], place: usize) -> u8
    ensures { result ≡ get_or bytes.now place 0 }
{
    bytes.get(place).copied().unwrap_or(0)
}
