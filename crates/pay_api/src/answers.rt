// The sixteen bytes of an answer.
ghost use Rattle.base.specs.Refusals.{number_of, given_or};
ghost use Rattle.pay_api.specs.Answer.{Answered};

use base::refusal::Refusal;
use base::{big_endian, refusal};

const ANSWER: usize = 16;

// Writes the refusal's number and the result, eight bytes each, and returns the number; beside a
// refusal the result is 0. Refused 2: the answer is not 16 bytes; then nothing is written. The
// entries only read before they come here, so this goes before all that they refuse.
pub(crate) fn put(res: Result<u64, Refusal>, answer: &mut [u8]) -> u8
    ensures { Answered (number_of res) (given_or 0 res) result answer.old answer.new }
{
    if answer.len() != ANSWER {
        return Refusal::WrongLength.number();
    }
    let mut given = 0;
    let number = refusal::pass(res, &mut given);
    big_endian::write(u64::from(number), &mut answer[0..8]);
    big_endian::write(given, &mut answer[8..16]);
    number
}
