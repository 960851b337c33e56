// The lines by which two books differ, as text.
ghost use Rattle.std.specs.Prelude.{◌≡◌, length};
ghost use Rattle.command.specs.Text.{Adds};
ghost use Rattle.pcd_book_compare.specs.Lines.{line_text};

use command::{ErrorOutput, put, put_field};

const LINE: usize = 256;

const DIFFERENT: u64 = 1;

const REFUSED: u64 = 2;

// The cases of a line.
const ONLY_FIRST: u64 = 1;

const ONLY_SECOND: u64 = 2;

// Writes the lines and answers the status: 0 only where the books are equal byte for byte.
pub(crate) fn report(rt: &(impl Print + ErrorOutput), first: &[u8], second: &[u8]) -> u64
    ensures { result ≡ 0 → first.now ≡ second.now }
{
    let mut space = [0u64; book_compare::TABLE];
    let table: &mut [u64] = &mut space;
    compared(rt, first, second, table)
}

fn compared(rt: &(impl Print + ErrorOutput), first: &[u8], second: &[u8], table: &mut [u64]) -> u64
    ensures { result ≡ 0 → first.now ≡ second.now }
{
    match book_compare::compare(first, second, &mut *table) {
        Ok(n) => show_lines(rt, table, n),
        Err(refusal) => {
            command::refuse(rt, b"pcd-book-compare", b"the books", refusal.number());
            REFUSED
        }
    }
}

// 0 for no line, 1 for some; 2 where one cannot be written.
fn show_lines(rt: &(impl Print + ErrorOutput), table: &[u64], n: u64) -> u64
    ensures { result ≡ 0 → n ≡ 0 }
{
    if n == 0 {
        return 0;
    }
    // One walk over the table: a search from its front for each line would take longer than linear.
    let mut lines = table.chunks_exact(3);
    for _ in 0..n {
        let Some(line) = lines.next() else {
            return REFUSED;
        };
        if !show_line(rt, line[0], line[1], line[2]) {
            return REFUSED;
        }
    }
    DIFFERENT
}

fn show_line(rt: &(impl Print + ErrorOutput), instant: u64, case: u64, place: u64) -> bool {
    let mut space = [0u8; LINE];
    show_line_in(rt, instant, case, place, &mut space)
}

fn show_line_in(
    rt: &(impl Print + ErrorOutput),
    instant: u64,
    case: u64,
    place: u64,
    line: &mut [u8],
) -> bool {
    let n = put_line(&mut *line, instant, case, place);
    command::show(rt, b"pcd-book-compare", &line[..n])
}

fn put_line(out: &mut [u8], instant: u64, case: u64, place: u64) -> usize
    ensures { Adds out.old 0 (line_text instant case place) out.new result }
{
    let timed = put_field(&mut *out, 0, b"instant ", instant);
    if case == ONLY_FIRST {
        return put(out, timed, b": only in the first\n");
    }
    if case == ONLY_SECOND {
        return put(out, timed, b": only in the second\n");
    }
    let placed = put_field(
        &mut *out,
        timed,
        b": in both, the first different byte is ",
        place,
    );
    put(out, placed, b"\n")
}
