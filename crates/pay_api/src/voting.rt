// The word of three copies, by each rule.
ghost use Rattle.labelling.specs.Words.{byte_vote};
ghost use Rattle.labelling.specs.Votes.{bit_vote};
ghost use Rattle.pay_api.specs.Entries.{VoteAnswer};

use crate::answers;
use labelling::Word;

// The result of a group whose three copies differ.
const SPLIT: u64 = 256;

// The byte that at least two copies have; 256 where all three differ.
pub fn pcd_pay_vote_bytes(a: u8, b: u8, c: u8, answer: &mut [u8]) -> u8
    ensures { VoteAnswer (byte_vote a b c) result answer.old answer.new }
{
    put_word(votes::vote(a, b, c).word, answer)
}

// Each bit is the one that at least two copies have.
pub fn pcd_pay_vote_bits(a: u8, b: u8, c: u8, answer: &mut [u8]) -> u8
    ensures { VoteAnswer (bit_vote a b c) result answer.old answer.new }
{
    put_word(votes::vote_bits(a, b, c).word, answer)
}

fn put_word(word: Word, answer: &mut [u8]) -> u8
    ensures { VoteAnswer word result answer.old answer.new }
{
    match word {
        Word::Voted(value) => answers::put(Ok(u64::from(value)), answer),
        Word::Erased => answers::put(Ok(SPLIT), answer),
    }
}
