// The check of a book that somebody else wrote (paper 02, request 8): yes, or its first fault with
// the lowest entry that has it. Yes is said exactly of what our writer gives.
#![tactic(auto)]

ghost use Rattle.book_check.specs.Promise.{CheckPromise};

use book::Fault;

// Checks a book. The first fault, in the order 16 for fewer than 4 bytes, 13, 16, 17, 18, 19, and
// its entry, 0 for 13 and 16.
pub fn check(bytes: &[u8]) -> Result<(), Fault>
    ensures { CheckPromise bytes.now result }
{
    book::first_fault(bytes)
}
