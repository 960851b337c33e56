// The lines of a map's picture, in SVG.
#![tactic(auto)]

ghost use Rattle.command.specs.Text.{Adds};
ghost use Rattle.map_lines.specs.Lines.{place_text, rect_text, label_text, legend_text};

use command::{put, put_field};

// So many equal cells, in units of cells.
pub fn put_rect(out: &mut [u8], at: usize, row: u64, first: u64, count: u64, class: u8) -> usize
    ensures { Adds out.old at (rect_text row first count class) out.new result }
{
    let placed = put_place(&mut *out, at, row, first);
    let wide = put_field(&mut *out, placed, b"\" width=\"", count);
    let classed = put_field(&mut *out, wide, b"\" height=\".9\" class=\"c", class as u64);
    put(out, classed, b"\"/>\n")
}

fn put_place(out: &mut [u8], at: usize, row: u64, first: u64) -> usize
    ensures { Adds out.old at (place_text row first) out.new result }
{
    let across = put_field(&mut *out, at, b"<rect x=\"", first);
    put_field(out, across, b"\" y=\"", row)
}

// The byte with which a row begins.
pub fn put_label(out: &mut [u8], at: usize, y: u64, byte: u64) -> usize
    ensures { Adds out.old at (label_text y byte) out.new result }
{
    let placed = put_field(&mut *out, at, b"<text x=\"102\" y=\"", y);
    let told = put_field(&mut *out, placed, b"\" text-anchor=\"end\">", byte);
    put(out, told, b"</text>\n")
}

// A class's colour; what it is and `</text>` follow.
pub fn put_legend(out: &mut [u8], at: usize, y: u64, class: u64) -> usize
    ensures { Adds out.old at (legend_text y class) out.new result }
{
    let placed = put_field(&mut *out, at, b"<rect x=\"10\" y=\"", y);
    let classed = put_field(
        &mut *out,
        placed,
        b"\" width=\"12\" height=\"12\" class=\"c",
        class,
    );
    let worded = put_field(&mut *out, classed, b"\"/><text x=\"28\" dy=\"10\" y=\"", y);
    put(out, worded, b"\">")
}
