// The refusals, by name, and the number that the papers give each (paper 01, "Refusal numbers", and those that paper 02 adds). When each is given is
// said by the lines of each entry's definition.
ghost use Rattle.std.specs.Prelude.{◌≡◌};
ghost use Rattle.base.specs.Refusals.{number, number_of, given_or};

// Why a call is refused. As a byte it is its number in the papers.
#[derive(Clone, Copy, Debug, PartialEq, Eq)]
pub enum Refusal {
    // The tally is not in order.
    NotInOrder = 1,

    // A lent area, column, source or output has another length than it must have.
    WrongLength = 2,

    // The bytes so far and the piece are more than 2^40.
    TooManyBytes = 3,

    // The spacing is above 60.
    SpacingTooWide = 4,

    // A minor frame to write lacks its sync words, or its number is above 127.
    NotAMinorFrame = 5,

    // The kind is above 3; or a column has none.
    NoSuchKind = 6,

    // The kind has no such item.
    NoSuchItem = 7,

    // A digit or a field of a time is out of range.
    TimeOutOfRange = 8,

    // The upper four bits of a 12-bit item are not 0.
    UpperBitsSet = 9,

    // A six-byte number is not normalised.
    NotNormalised = 10,

    // A double has no six-byte word.
    NoWordForDouble = 11,

    // A list of instants is longer than 100,000.
    ListTooLong = 12,

    // A year is outside 1999 to 2099.
    YearOutsideSpan = 13,

    // The operator's number is above 7.
    NoSuchOperator = 14,

    // A fresh tally is asked for with another rule than 1 and 2. This is tested before all others.
    NoSuchRule = 15,

    // A book's length is not that of its number of cycles, or it has more than 255.
    WrongBookLength = 16,

    // A body of a book is not as described.
    NotACycle = 17,

    // An entry's instant is not its body's, or does not rise.
    WrongInstant = 18,

    // An entry's offset is not where its body starts.
    WrongOffset = 19,

    // A book has no such entry.
    NoSuchEntry = 20,

    // The years of two books differ.
    YearsDiffer = 21,

    // A VCDU header has another length than eight bytes.
    NotAHeader = 22,

    // No code word lies within two symbols of a VCDU header's.
    NoCodeWord = 23,

    // An area is not a whole number of slots of 16,384 bytes, 1 to 64 of them.
    NotWholeSlots = 24,

    // Bits are set beyond the slots.
    BitsBeyondSlots = 25,

    // Every slot is in use.
    NoFreeSlot = 26,

    // A slot is not in use, or not there.
    NoSuchSlot = 27,

    // A data pointer is above 84.
    NoSuchPointer = 28,

    // The frames to go on are more than 2^24 - 1.
    TooManyFrames = 29,
}

impl Refusal {
    // The number that the papers give it, 1 to 29.
    pub fn number(self) -> u8
        ensures { result ≡ number self }
    {
        self as u8
    }
}

// What a caller in another language is told: 0, or the number of the refusal.
pub fn code<T: Drop>(answer: Result<T, Refusal>) -> u8
    ensures { result ≡ number_of answer }
{
    match answer {
        Ok(_) => 0,
        Err(refusal) => refusal.number(),
    }
}

// The same, and what the answer gives is put into `out`; a refusal leaves that as it was.
pub fn pass<T: Copy + Drop>(answer: Result<T, Refusal>, out: &mut T) -> u8
    ensures code { result ≡ number_of answer }
    ensures out { out.new ≡ given_or out.old answer }
{
    match answer {
        Ok(given) => {
            *out = given;
            0
        }
        Err(refusal) => refusal.number(),
    }
}
