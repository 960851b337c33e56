// The two votes on the three copies of a group, and the copy that they find weak.
#![tactic(auto)]

ghost use Rattle.std.specs.Prelude.{◌≡◌};
ghost use Rattle.labelling.specs.Words.{byte_vote};
ghost use Rattle.labelling.specs.Votes.{rule_vote};
ghost use Rattle.votes.specs.Promise.{weak_from, VotePromise, BitVotePromise};

use labelling::Word;

// The rule of the second agreement.
const BY_BITS: u64 = 2;

#[derive(Clone, Copy, Debug, PartialEq, Eq)]
pub struct Voted {
    pub word: Word,
    // The copy that disagrees with the two others: 1, 2 or 3, and 0 for none.
    pub weak: u8,
}

// Each bit is the one that at least two copies have; and the weak copy, of which three different copies name none.
pub fn vote_bits(a: u8, b: u8, c: u8) -> Voted
    ensures { BitVotePromise a b c result }
{
    Voted {
        word: Word::Voted((a & b) | (a & c) | (b & c)),
        weak: weak_number(a == b, a == c, b == c),
    }
}

// The byte that at least two copies have, or an erasure where all three differ; and the weak copy. Two equal copies decide the vote by bits
// too. Which copies agree cannot be foreseen on a reel with a bad head, so one sum tells whether any do: a test of three would be three branches.
pub fn vote(a: u8, b: u8, c: u8) -> Voted
    ensures { VotePromise byte_vote a b c result }
{
    let by_bits = vote_bits(a, b, c);
    if by_bits.weak + u8::from(a == b) != 0 {
        return by_bits;
    }
    Voted {
        word: Word::Erased,
        weak: by_bits.weak,
    }
}

// The vote of a rule.
pub fn vote_by(rule: u64, a: u8, b: u8, c: u8) -> Voted
    ensures { VotePromise (rule_vote rule) a b c result }
{
    if rule == BY_BITS {
        return vote_bits(a, b, c);
    }
    vote(a, b, c)
}

// The number of the weak copy, from which copies are equal.
fn weak_number(ab: bool, ac: bool, bc: bool) -> u8
    ensures { result ≡ weak_from ab ac bc }
{
    3 * u8::from(ab & !ac) + 2 * u8::from(!ab & ac) + u8::from(!ab & !ac & bc)
}
