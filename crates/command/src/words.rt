// The refusal numbers in words, a line for each from 0 on; `base` has them by name.
ghost use Rattle.std.specs.Prelude.{◌≡◌};
ghost use Rattle.command.specs.Text.{Adds};
ghost use Rattle.command.specs.Words.{refusal_words, meaning};

use crate::{lines, text};

const WORDS: [u8; 1256] = *b"\
nothing is refused
the tally is not in order
a lent area, column, source or output has another length than it must have
the bytes so far and the piece are more than 2^40
the spacing is above 60
a minor frame to write lacks its sync bytes or has a number above 127
the kind is above 3, or the column has none
the kind has no such item
a digit or a field of a time is out of range
the upper four bits of a 12-bit item are not 0
a six-byte number is not normalised
a double has no six-byte word
a list of instants is longer than 100,000
the year is outside 1999 to 2099
the operator's number is above 7
there is no such rule of the vote
the length is not that of so many cycles, or there are more than 255
a body is not four major frames of kinds 0 to 3, each minor frame with its sync bytes and its number
an entry's instant is not its body's, or does not rise
an entry's offset is not where its body starts
the book has no such entry
the years of the two books differ
a VCDU header is not 8 bytes
no code word lies within two symbols of the header's
the area is not 1 to 64 whole slots of 16,384 bytes
bits are set beyond the slots
no slot is free
the slot is not in use, or not there
the data pointer is above 84
the frames to go on are more than 2^24 - 1
";

// What a refusal number means; nothing for a number that is none.
pub(crate) fn words(number: u8) -> &'static [u8]
    ensures { result.now ≡ refusal_words number }
{
    lines::line(&WORDS, usize::from(number))
}

// Puts what a refusal number means.
pub fn put_words(out: &mut [u8], at: usize, number: u8) -> usize
    ensures { Adds out.old at (refusal_words number) out.new result }
{
    text::put(out, at, words(number))
}

// A colon, and what a refusal number means.
pub fn put_meaning(out: &mut [u8], at: usize, number: u8) -> usize
    ensures { Adds out.old at (meaning number) out.new result }
{
    let middle = text::put(&mut *out, at, b": ");
    put_words(out, middle, number)
}
