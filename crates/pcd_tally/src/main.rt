// Reads standard input to its end and writes the tally of its bytes. Where the input cannot be read to its end, has more than 2^40
// bytes, or the tally cannot be written, a line on standard error says so, and no tally is written.
#![tactic(auto)]

ghost use Rattle.std.specs.Prelude.{◌≡◌};
ghost use Rattle.pcd_tally.specs.Reading.{blank, ReadSoFar, FedPromise, TookPromise, TurnPromise, TallyOf, is_more, AllPromise};

use labelling::Tally;
use std::io::Read;

// The program keeps the vote by bytes.
const RULE: u64 = 1;

// How reading stands.
#[derive(Clone, Copy)]
enum Input {
    More,
    Ended,
    Unreadable,
    TooLong,
}

#[derive(Clone, Copy)]
struct State {
    tally: Tally,
    // How many bytes were read, as the reads counted them.
    read: u64,
    input: Input,
}

fn main(rt: HostRuntime) {
    let state = read_all(&mut rt.stdin());
    let input = state.input;
    match input {
        Input::Ended => report(&rt, state.tally, state.read),
        Input::TooLong => complain(&rt, "pcd_tally: standard input has more than 2^40 bytes"),
        // There is never more: the reading goes on then.
        Input::Unreadable | Input::More => complain(
            &rt,
            "pcd_tally: standard input cannot be read",
        ),
    }
}

// Where standard error cannot be written, there is nothing left to say so on.
fn complain(rt: &impl Eprint, line: &str) {
    let _ = rt.eprintln(line);
}

// The tally of so many bytes.
fn report(rt: &(impl Print + Eprint), t: Tally, read: u64)
    requires { TallyOf read t }
{
    if tally_text::show(rt, t).is_err() {
        complain(rt, "pcd_tally: standard output cannot be written");
    }
}

fn begun() -> State
    ensures { ReadSoFar result.read result.tally blank }
{
    let begun = reader::fresh(RULE);
    let tally = begun.tally;
    State {
        tally: tally,
        read: 0,
        input: Input::More,
    }
}

// Each read but the last brings a byte or more, and the tally takes 2^40 at most: so the reading ends.
fn read_all(input: &mut impl Read) -> State
    ensures { AllPromise result }
{
    let mut buffer_space = io::large_buffer();
    let buffer: &mut [u8] = &mut buffer_space;
    let mut area_space = [0u8; 16384];
    let area: &mut [u8] = &mut area_space;
    let mut state = begun();
    // What the reads bring ends it: a `for` would need a bound that no input reaches and an
    // answer behind it, which could not promise that the reading has stopped.
    loop {
        state = turn(state, &mut *input, &mut *buffer, &mut *area);
        let input = state.input;
        if !goes_on(input) {
            return state;
        }
    }
}

fn goes_on(input: Input) -> bool
    ensures { result ≡ is_more input }
{
    match input {
        Input::More => true,
        Input::Ended => false,
        Input::Unreadable => false,
        Input::TooLong => false,
    }
}

// One read, and what it brought.
fn turn(s: State, input: &mut impl Read, buffer: &mut [u8], area: &mut [u8]) -> State
    requires { ReadSoFar s.read s.tally area.old }
    ensures { TurnPromise s buffer.new area.old result area.new }
{
    let got = input.read(&mut *buffer);
    took(s, got, buffer, area)
}

// What a read brought that answered so.
fn took(s: State, got: std::io::Result<usize>, buffer: &[u8], area: &mut [u8]) -> State
    requires { ReadSoFar s.read s.tally area.old }
    ensures { TookPromise s got buffer.now area.old result area.new }
{
    let tally = s.tally;
    let Ok(n) = got else {
        return State {
            tally: tally,
            read: s.read,
            input: Input::Unreadable,
        };
    };
    let n = n.min(buffer.len());
    if n == 0 {
        return State {
            tally: tally,
            read: s.read,
            input: Input::Ended,
        };
    }
    fed(s, &buffer[..n], area)
}

// A piece of the input: all of it is taken, unless it takes the tally above its limit.
fn fed(s: State, piece: &[u8], area: &mut [u8]) -> State
    requires { ReadSoFar s.read s.tally area.old }
    ensures { FedPromise s piece.now area.old result area.new }
{
    let t = s.tally;
    let Ok(f) = feeding::feed(t, piece, area) else {
        return State {
            tally: t,
            read: s.read,
            input: Input::TooLong,
        };
    };
    let u = f.tally;
    State {
        tally: u,
        read: s.read + f.taken as u64,
        input: Input::More,
    }
}
