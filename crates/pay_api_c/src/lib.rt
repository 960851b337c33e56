// The pay system's entries for programs in C: each entry calls the function of `pay_api` that has its
// name, and promises the same. include/pcd.h declares them.
#![tactic(auto)]

ghost use Rattle.pay_api.specs.Entries.{InstantAnswer, NumberAnswer, FindAnswer, VoteAnswer};
ghost use Rattle.labelling.specs.Words.{byte_vote};
ghost use Rattle.labelling.specs.Votes.{bit_vote};

#[unsafe(no_mangle)]
pub extern "C" fn pcd_pay_instant(bytes: &[u8], year: u64, answer: &mut [u8]) -> u8
    ensures { InstantAnswer year bytes.now result answer.old answer.new }
{
    pay_api::pcd_pay_instant(bytes, year, answer)
}

#[unsafe(no_mangle)]
pub extern "C" fn pcd_pay_number(bytes: &[u8], answer: &mut [u8]) -> u8
    ensures { NumberAnswer bytes.now result answer.old answer.new }
{
    pay_api::pcd_pay_number(bytes, answer)
}

#[unsafe(no_mangle)]
pub extern "C" fn pcd_pay_find(instants: &[u8], wanted: u64, answer: &mut [u8]) -> u8
    ensures { FindAnswer instants.now wanted result answer.old answer.new }
{
    pay_api::pcd_pay_find(instants, wanted, answer)
}

#[unsafe(no_mangle)]
pub extern "C" fn pcd_pay_vote_bytes(a: u8, b: u8, c: u8, answer: &mut [u8]) -> u8
    ensures { VoteAnswer (byte_vote a b c) result answer.old answer.new }
{
    pay_api::pcd_pay_vote_bytes(a, b, c, answer)
}

#[unsafe(no_mangle)]
pub extern "C" fn pcd_pay_vote_bits(a: u8, b: u8, c: u8, answer: &mut [u8]) -> u8
    ensures { VoteAnswer (bit_vote a b c) result answer.old answer.new }
{
    pay_api::pcd_pay_vote_bits(a, b, c, answer)
}
