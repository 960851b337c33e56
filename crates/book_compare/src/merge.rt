// The cycles of two books by rising instant, one step at a time, and the lines that they give.
ghost use Rattle.std.specs.Prelude.{◌≡◌, ◌++◌, ◌+◌, ◌*◌, ◌≤◌, ◌<◌, length, take, drop};
ghost use Rattle.book.specs.Layout.{cycles_said, instant_at};
ghost use Rattle.book_parts.specs.Parts.{Entered};
ghost use Rattle.book_compare.specs.Differences.{only_first, only_second};
ghost use Rattle.book_compare.specs.Answer.{table_length};
ghost use Rattle.book_compare.specs.Merge.{Placed, step_to, past_both, line_numbers, Stepped, PutPromise};

use crate::bodies;
use cycle::CYCLE;

// The cases of a line, as the table holds them: C reads them there.
const ONLY_FIRST: u64 = 1;

const ONLY_SECOND: u64 = 2;

const IN_BOTH: u64 = 3;

// A line of the table.
#[derive(Clone, Copy)]
pub(crate) struct Line {
    instant: u64,
    case: u64,
    place: u64,
}

// A step: the cycles to come, and a line if the step gives one.
#[derive(Clone, Copy)]
pub(crate) struct Step {
    i: u64,
    j: u64,
    line: Option<Line>,
}

// Puts every line into the table and answers how many there are.
pub(crate) fn put_lines(first: &[u8], second: &[u8], table: &mut [u64]) -> u64
    requires { Placed first.now second.now 0 0 × (length table.old ≡ table_length) }
    ensures { PutPromise first.now second.now table.old table.new result }
{
    let end = book::cycles(first) + book::cycles(second);
    let mut i: u64 = 0;
    let mut j: u64 = 0;
    let mut k: usize = 0;
    while i + j < end {
        let s = next_step(first, second, i, j);
        i = s.i;
        j = s.j;
        if let Some(line) = s.line {
            put_line(table, k, line);
            k += 1;
        }
    }
    k as u64
}

fn put_line(table: &mut [u64], k: usize, line: Line)
    requires { 3 * k + 3 ≤ length table.old }
    ensures { table.new ≡ take (3 * k) table.old ++ (line_numbers line ++ drop (3 * k + 3) table.old) }
{
    let at = 3 * k;
    table[at] = line.instant;
    table[at + 1] = line.case;
    table[at + 2] = line.place;
}

// The next step, of which one book or both have a cycle to come.
fn next_step(first: &[u8], second: &[u8], i: u64, j: u64) -> Step
    requires { Placed first.now second.now i j × (i + j < cycles_said first.now + cycles_said second.now) }
    ensures { Stepped first.now second.now i j result }
{
    if i == book::cycles(first) {
        return past_second(i, j, book_parts::instant(second, j));
    }
    if j == book::cycles(second) {
        return past_first(i, j, book_parts::instant(first, i));
    }
    step_both(first, second, i, j)
}

// Both have one: the lower instant comes first.
fn step_both(first: &[u8], second: &[u8], i: u64, j: u64) -> Step
    requires { Entered first.now i × Entered second.now j }
    ensures { Stepped first.now second.now i j result }
{
    let s = book_parts::instant(first, i);
    let t = book_parts::instant(second, j);
    if s < t {
        return past_first(i, j, s);
    }
    if t < s {
        return past_second(i, j, t);
    }
    let c = book_parts::body(first, i);
    let d = book_parts::body(second, j);
    past_both(i, j, s, bodies::first_differing(c, d))
}

fn past_first(i: u64, j: u64, instant: u64) -> Step
    requires { i ≤ 255 }
    ensures { result ≡ step_to (i + 1) j (only_first instant) }
{
    Step {
        i: i + 1,
        j: j,
        line: Some(Line {
            instant: instant,
            case: ONLY_FIRST,
            place: 0,
        }),
    }
}

fn past_second(i: u64, j: u64, instant: u64) -> Step
    requires { j ≤ 255 }
    ensures { result ≡ step_to i (j + 1) (only_second instant) }
{
    Step {
        i: i,
        j: j + 1,
        line: Some(Line {
            instant: instant,
            case: ONLY_SECOND,
            place: 0,
        }),
    }
}

// Two cycles of one instant: no line where no byte of their bodies differs.
fn past_both(i: u64, j: u64, instant: u64, place: usize) -> Step
    requires { (i ≤ 255) × (j ≤ 255) }
    ensures { result ≡ past_both i j instant place }
{
    if CYCLE <= place {
        return Step {
            i: i + 1,
            j: j + 1,
            line: None,
        };
    }
    Step {
        i: i + 1,
        j: j + 1,
        line: Some(Line {
            instant: instant,
            case: IN_BOTH,
            place: place as u64,
        }),
    }
}
