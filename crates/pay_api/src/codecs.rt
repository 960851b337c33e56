// The codecs of word 72, reading only.
ghost use Rattle.pay_api.specs.Entries.{InstantAnswer, NumberAnswer};

use crate::answers;

// The instant of a seven-byte time of a year. Refused: 2, not seven bytes; 13, the year; 8, a digit
// or a field.
pub fn pcd_pay_instant(bytes: &[u8], year: u64, answer: &mut [u8]) -> u8
    ensures { InstantAnswer year bytes.now result answer.old answer.new }
{
    answers::put(time_code::decode(year, bytes).map(|t| t.instant), answer)
}

// The 64 bits of the double that six bytes stand for. Refused: 2, not six bytes; 10, not normalised.
pub fn pcd_pay_number(bytes: &[u8], answer: &mut [u8]) -> u8
    ensures { NumberAnswer bytes.now result answer.old answer.new }
{
    answers::put(float1750::decode(bytes).map(|x| x.to_bits()), answer)
}
