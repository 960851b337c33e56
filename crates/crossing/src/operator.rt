// A call that names an operator (paper 02, request 5), on the numbers that the caller lends.
ghost use Rattle.crossing.specs.Crossing.{places, DutyCrossed};

use base::refusal::Refusal;
use reader::LAST_OPERATOR;
use tally_numbers::NUMBERS;

// Puts an operator on duty. Returns the number of the refusal, 0 for none; a refusal writes nothing.
pub fn change_duty(numbers: &mut [u64; NUMBERS], frame: &mut [u8; 128], operator: u64) -> u8
    ensures { DutyCrossed (places numbers.old frame.old) operator result (places numbers.new frame.new) }
{
    if !in_place::in_order(&*numbers, &*frame) {
        return Refusal::NotInOrder.number();
    }
    if operator > LAST_OPERATOR {
        return Refusal::NoSuchOperator.number();
    }
    let t = tally_numbers::tally_of(&*numbers, &*frame);
    let left = reader::on_duty(t, operator);
    tally_numbers::put_tally(left, numbers, frame);
    0
}
