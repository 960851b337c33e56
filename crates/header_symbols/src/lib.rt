// The ten symbols of a VCDU header as one number of 40 bits, the first symbol highest: taken, put back,
// weighed and looked up. A leaf for the entries of vcdu_header.
#![tactic(auto)]

mod tables;

ghost use Rattle.std.specs.Prelude.{◌≡◌, ◌+◌, ◌*◌, length, get_or};
ghost use Rattle.header_code.specs.Code.{weight};
ghost use Rattle.header_code.specs.Symbols.{symbols_of, combined};
ghost use Rattle.header_code.specs.Decoder.{syndromes, checks};
ghost use Rattle.header_symbols.specs.Header.{symbols, placed, put_after};

// A header has eight bytes.
const HEADER: usize = 8;

// The ten symbols of a header; a byte that is missing counts as 0.
pub fn pack(header: &[u8]) -> u64
    ensures { symbols_of 10 result ≡ symbols header.now }
{
    join(
        byte_at(header, 0),
        byte_at(header, 1),
        byte_at(header, 5),
        byte_at(header, 6),
        byte_at(header, 7),
    )
}

// A byte, 0 past the end.
fn byte_at(bytes: &[u8], place: usize) -> u8
    ensures { result ≡ get_or bytes.now place 0 }
{
    if place < bytes.len() {
        return bytes[place];
    }
    0
}

// Five bytes as one number, the first byte highest.
fn join(a: u8, b: u8, c: u8, d: u8, e: u8) -> u64
    ensures { result ≡ (((a * 256 + b) * 256 + c) * 256 + d) * 256 + e }
{
    let upper = (u64::from(a) * 256 + u64::from(b)) * 256 + u64::from(c);
    (upper * 256 + u64::from(d)) * 256 + u64::from(e)
}

// Puts the last ten symbols of a number into a header; the counter stays. Other than eight bytes are
// left as they are.
pub fn put(header: &mut [u8], word: u64)
    ensures { header.new ≡ put_after (symbols_of 10 word) header.old }
{
    if header.len() != HEADER {
        return;
    }
    put_eight(header, word)
}

fn put_eight(header: &mut [u8], word: u64)
    requires { length header.old ≡ 8 }
    ensures { header.new ≡ placed (symbols_of 10 word) header.old }
{
    header[0] = (word / 0x1_0000_0000 % 256) as u8;
    header[1] = (word / 0x100_0000 % 256) as u8;
    header[5] = (word / 0x1_0000 % 256) as u8;
    header[6] = (word / 0x100 % 256) as u8;
    header[7] = (word % 256) as u8;
}

// The values at the four roots, four bits each; 0 exactly for a code word.
pub fn syndrome(word: u64) -> u16
    ensures { result ≡ combined syndromes (symbols_of 10 word) }
{
    let table = &tables::SYNDROMES;
    combine(table, word)
}

// The check symbols of the first six symbols, four bits each.
pub fn check_symbols(word: u64) -> u16
    ensures { result ≡ combined checks (symbols_of 10 word) }
{
    let table = &tables::CHECKS;
    combine(table, word)
}

// Adds up a table's entries for the ten symbols.
fn combine(table: &[u16; 160], word: u64) -> u16
    ensures { result ≡ combined table.now (symbols_of 10 word) }
{
    let mut sum: u16 = 0;
    let mut rest = word;
    for place in 0..10 {
        sum = table[place * 16 + (rest % 16) as usize] ^ sum;
        rest = rest / 16;
    }
    sum
}

// How many of ten symbols are not 0.
pub fn weigh(word: u64) -> u64
    ensures { result ≡ weight (symbols_of 10 word) }
{
    let mut count: u64 = 0;
    let mut rest = word;
    for _ in 0..10u64 {
        count += u64::from(rest % 16 != 0);
        rest = rest / 16;
    }
    count
}
