// The picture: a heading, a legend with the counts, the byte with which each eighth row begins, and the cells.
ghost use Rattle.std.specs.Prelude.{◌≤◌};
ghost use Rattle.io.specs.Counts.{IsPrefixLen};

use command::{ErrorOutput, put, put_field};
use labelling::Tally;
use map_lines::{put_label, put_legend, put_rect};

// A row has 128 runs at most, of 60 bytes at most each; the heading and the legend are shorter.
const TEXT: usize = 8192;

// The map has 256 rows of 128 cells at most.
const CELLS: usize = 32768;

const ROWS: usize = 256;

const ROW: usize = 128;

// Every so manieth row tells the byte with which it begins.
const TOLD: usize = 8;

// A reel as it was read: how many bytes, in which way, and what was counted.
#[derive(Clone, Copy)]
pub struct Told {
    pub bytes: u64,
    pub strict: bool,
    pub tally: Tally,
}

// Writes the picture of the cells as far as the last one; false where it cannot be written, and a line has said so.
pub(crate) fn show(
    rt: &(impl Print + ErrorOutput),
    told: Told,
    length: u64,
    last: usize,
    cells: &[u8],
) -> bool {
    let mut space = [0u8; TEXT];
    let count = used(last);
    if !show_head(rt, &mut space, told, length, count) {
        return false;
    }
    if !show_labels(rt, &mut space, length, count) {
        return false;
    }
    show_cells(rt, &mut space, count, cells)
}

fn show_cells(
    rt: &(impl Print + ErrorOutput),
    text: &mut [u8],
    count: usize,
    cells: &[u8],
) -> bool {
    if !command::show(
        rt,
        b"pcd-map",
        b"</g>\n<g transform=\"translate(110 164) scale(6 8)\">\n",
    ) {
        return false;
    }
    if !show_rows(rt, text, count, cells) {
        return false;
    }
    command::show(rt, b"pcd-map", b"</g>\n</svg>\n")
}

// How many cells there are up to the last one.
fn used(last: usize) -> usize
    ensures { result ≤ 32768 }
{
    if last < CELLS {
        return last + 1;
    }
    CELLS
}

fn show_head(
    rt: &(impl Print + ErrorOutput),
    text: &mut [u8],
    told: Told,
    length: u64,
    count: usize,
) -> bool {
    let sized = put_size(&mut *text, count);
    let read = put_reading(&mut *text, sized, told.bytes, told.strict, length);
    let n = put_counts(&mut *text, read, told.tally);
    command::show(rt, b"pcd-map", &text[..n])
}

// The colours are those of Okabe and Ito, which colour-blind readers tell apart.
fn put_size(out: &mut [u8], count: usize) -> usize {
    let rows = (count % 65536 + 127) / ROW;
    let sized = put_field(
        &mut *out,
        0,
        b"<svg xmlns=\"http://www.w3.org/2000/svg\" width=\"890\" height=\"",
        rows as u64 * 8 + 176,
    );
    put(
        out,
        sized,
        b"\" font-family=\"sans-serif\" font-size=\"12\">\n<title>Map of a reel</title>\n<style>\
.c0{fill:#dddddd}.c1{fill:#56b4e9}.c2{fill:#009e73}.c3{fill:#e69f00}.c4{fill:#f0e442}.c5{fill:#d55e00}</style>\n\
<rect width=\"100%\" height=\"100%\" fill=\"#ffffff\"/>\n<text x=\"10\" y=\"24\" font-size=\"16\">Map of a reel</text>\n",
    )
}

fn put_reading(out: &mut [u8], at: usize, bytes: u64, strict: bool, length: u64) -> usize {
    let read = put_field(
        &mut *out,
        at,
        b"<text x=\"10\" y=\"44\">bytes of the reel: ",
        bytes,
    );
    let way = put_way(&mut *out, read, strict, length);
    put(
        out,
        way,
        b". A cell shows the first of these that it has:</text>\n",
    )
}

fn put_way(out: &mut [u8], at: usize, strict: bool, length: u64) -> usize {
    if strict {
        return put_field(
            out,
            at,
            b", read by its lead-ins alone; bytes of a cell: ",
            length,
        );
    }
    put_field(
        out,
        at,
        b", read by its frames' own sync; bytes of a cell: ",
        length,
    )
}

fn put_counts(out: &mut [u8], at: usize, t: Tally) -> usize
    ensures { IsPrefixLen result out.new }
{
    let harmed = put_harm(&mut *out, at, t);
    let framed = put_frames(&mut *out, harmed, t);
    put(out, framed, b"<g font-size=\"9\">\n")
}

fn put_harm(out: &mut [u8], at: usize, t: Tally) -> usize {
    let a = put_two(
        &mut *out,
        at,
        56,
        5,
        b"stray bytes ",
        t.groups.stray,
        b", split words ",
        t.groups.split,
    );
    let b = put_two(
        &mut *out,
        a,
        72,
        4,
        b"hunted words ",
        t.framing.hunted,
        b", unsynced minor frames ",
        t.framing.unsynced,
    );
    put_one(out, b, 88, 3, b"damaged minor frames ", t.framing.damaged)
}

fn put_frames(out: &mut [u8], at: usize, t: Tally) -> usize {
    let a = put_one(&mut *out, at, 104, 2, b"paid major frames ", t.runs.majors);
    let b = put_one(
        &mut *out,
        a,
        120,
        1,
        b"good minor frames that are not paid ",
        not_paid(t),
    );
    put_one(
        out,
        b,
        136,
        0,
        b"none of these: FILL, or a part of a frame that ends later; bytes of FILL ",
        t.groups.fill,
    )
}

fn not_paid(t: Tally) -> u64 {
    reel_map::sum(reel_map::sum(t.runs.broken, t.runs.loose), t.runs.building)
}

fn put_one(out: &mut [u8], at: usize, y: u64, class: u64, name: &[u8], n: u64) -> usize {
    let coloured = put_legend(&mut *out, at, y, class);
    let counted = put_field(&mut *out, coloured, name, n);
    put(out, counted, b"</text>\n")
}

fn put_two(
    out: &mut [u8],
    at: usize,
    y: u64,
    class: u64,
    name: &[u8],
    n: u64,
    more: &[u8],
    m: u64,
) -> usize {
    let coloured = put_legend(&mut *out, at, y, class);
    let counted = put_field(&mut *out, coloured, name, n);
    let both = put_field(&mut *out, counted, more, m);
    put(out, both, b"</text>\n")
}

fn show_labels(
    rt: &(impl Print + ErrorOutput),
    text: &mut [u8],
    length: u64,
    count: usize,
) -> bool {
    let mut byte: u64 = 0;
    for eighth in 0..ROWS / TOLD {
        let row = TOLD * eighth;
        if count <= row * ROW {
            return true;
        }
        if !show_label(rt, &mut *text, 171 + 8 * row as u64, byte) {
            return false;
        }
        byte = reel_map::sum(byte, told_rows(length));
    }
    true
}

// How many bytes of the reel eight rows have; a length beyond 2^50 is none of a map.
fn told_rows(length: u64) -> u64 {
    if length < 1 << 50 {
        return 1024 * length;
    }
    0
}

fn show_label(rt: &(impl Print + ErrorOutput), text: &mut [u8], y: u64, byte: u64) -> bool {
    let n = put_label(&mut *text, 0, y, byte);
    command::show(rt, b"pcd-map", &text[..n])
}

fn show_rows(rt: &(impl Print + ErrorOutput), text: &mut [u8], count: usize, cells: &[u8]) -> bool {
    for row in 0..ROWS {
        if count <= row * ROW {
            return true;
        }
        if !show_row(rt, &mut *text, row as u64, row * ROW, count, cells) {
            return false;
        }
    }
    true
}

// The row that begins with cell `first`.
fn show_row(
    rt: &(impl Print + ErrorOutput),
    text: &mut [u8],
    row: u64,
    first: usize,
    count: usize,
    cells: &[u8],
) -> bool {
    let n = put_row(&mut *text, row, first, count, cells);
    command::show(rt, b"pcd-map", &text[..n])
}

fn put_row(out: &mut [u8], row: u64, first: usize, count: usize, cells: &[u8]) -> usize
    ensures { IsPrefixLen result out.new }
{
    let end = row_end(first, count);
    let mut at: usize = 0;
    let mut i = first;
    // It goes on by runs, whose ends only the cells tell: a `for` has no such steps.
    while i < end {
        let stop = map_cells::run_end(cells, i, end);
        at = put_rect(
            &mut *out,
            at,
            row,
            (i - first) as u64,
            (stop - i) as u64,
            map_cells::class_at(cells, i),
        );
        i = stop;
    }
    at
}

// Where a row ends: after 128 cells, or with the map.
fn row_end(first: usize, count: usize) -> usize {
    if count <= first {
        return count;
    }
    if count - first < ROW {
        return count;
    }
    first + ROW
}
