// The check symbols of a VCDU header (paper 02, request 11; the book, appendix B): written, checked,
// and used to repair a header in which up to two of the ten symbols are wrong. The 24-bit counter,
// bytes 2 to 4, is not protected.
#![tactic(auto)]

ghost use Rattle.std.specs.Prelude.{◌≡◌};
ghost use Rattle.base.specs.Refusals.{number_of, permitted};
ghost use Rattle.vcdu_header.specs.Answers.{header_lines};
ghost use Rattle.vcdu_header.specs.Promise.{EncodePromise, CheckPromise, RepairPromise};

use base::refusal::Refusal;

// A header has eight bytes.
const HEADER: usize = 8;

// Writes the check symbols into the last two bytes. Refused 22: not eight bytes.
pub fn encode(header: &mut [u8]) -> Result<(), Refusal>
    ensures answer { result ≡ permitted (header_lines header.old) }
    ensures bytes { EncodePromise header.old header.new (number_of result) }
{
    if header.len() != HEADER {
        return Err(Refusal::NotAHeader);
    }
    let word = header_symbols::pack(header);
    let checks = header_symbols::check_symbols(word);
    header[6] = (checks / 256) as u8;
    header[7] = (checks % 256) as u8;
    Ok(())
}

// Whether the ten symbols are a code word. Refused 22: not eight bytes.
pub fn check(header: &[u8]) -> Result<bool, Refusal>
    ensures { CheckPromise header.now result }
{
    if header.len() != HEADER {
        return Err(Refusal::NotAHeader);
    }
    let word = header_symbols::pack(header);
    Ok(header_symbols::syndrome(word) == 0)
}

// Puts the code word within two symbols into the header and answers how many were wrong.
// Refused 22: not eight bytes. Refused 23: there is no such word; nothing is written.
pub fn repair(header: &mut [u8]) -> Result<u64, Refusal>
    ensures { RepairPromise header.old header.new result }
{
    if header.len() != HEADER {
        return Err(Refusal::NotAHeader);
    }
    let word = header_symbols::pack(header);
    let left = header_symbols::syndrome(word);
    if left == 0 {
        return Ok(0);
    }
    let errors = header_decoder::located(left);
    // Where the symbols that are located among the ten do not explain the syndrome, an error lies in
    // the virtual fill or there are three.
    if header_symbols::syndrome(errors) != left {
        return Err(Refusal::NoCodeWord);
    }
    header_symbols::put(header, word ^ errors);
    Ok(header_symbols::weigh(errors))
}
