// The year that an argument of a program names.
#![tactic(auto)]

ghost use Rattle.std.specs.Prelude.{◌≡◌};
ghost use Rattle.year_argument.specs.Years.{YearPromise, year_in};

use command::ErrorOutput;
use std::rt::Env;

const WORD: usize = 64;

// The year of an argument; none where it names none of 1999 to 2099, and a line says so then.
pub fn year_at(rt: &(impl Env + ErrorOutput), program: &[u8], i: usize) -> Option<u64>
    ensures { YearPromise result }
{
    let mut word = [0u8; WORD];
    let n = command::argument(rt, i, &mut word);
    year_in(rt, program, &word[..n])
}

fn year_in(rt: &impl ErrorOutput, program: &[u8], word: &[u8]) -> Option<u64>
    ensures { result ≡ year_in word.now }
{
    if let Some(year) = command::number(word) {
        if time_code::year::in_span(year) {
            return Some(year);
        }
    }
    say_no_year(rt, program, word);
    None
}

fn say_no_year(rt: &impl ErrorOutput, program: &[u8], word: &[u8]) {
    command::say(
        rt,
        program,
        word,
        b"not a year: a number from 1999 to 2099 is asked for",
    );
}
