// What is told at the end, on standard error: the tally, the lead-ins, and the paid counts of the operators.
ghost use Rattle.command.specs.Text.{Adds};
ghost use Rattle.pcd_frames.specs.Lines.{lead_ins_text, operator_text};

use command::{ErrorOutput, put, put_field, write_error};
use labelling::{Operators, Tally};

const TEXT: usize = 128;

pub(crate) fn show(rt: &impl ErrorOutput, t: Tally, handed: u64, operators: bool) {
    let _ = tally_text::show(&rt.error_output(), t);
    let mut space = [0u8; TEXT];
    show_lead_ins(rt, &mut space, handed);
    if operators {
        let o = t.operators;
        show_operators(rt, o);
    }
}

fn show_lead_ins(rt: &impl ErrorOutput, text: &mut [u8], handed: u64) {
    let n = put_lead_ins(&mut *text, handed);
    write_error(rt, &text[..n]);
}

fn show_operators(rt: &impl ErrorOutput, o: Operators) {
    for (k, &n) in o.paid.iter().enumerate() {
        show_operator(rt, k as u64, n);
    }
}

fn show_operator(rt: &impl ErrorOutput, k: u64, n: u64) {
    let mut space = [0u8; TEXT];
    show_operator_in(rt, &mut space, k, n);
}

fn show_operator_in(rt: &impl ErrorOutput, text: &mut [u8], k: u64, n: u64) {
    let end = put_operator(&mut *text, 0, k, n);
    write_error(rt, &text[..end]);
}

fn put_lead_ins(out: &mut [u8], n: u64) -> usize
    ensures { Adds out.old 0 (lead_ins_text n) out.new result }
{
    let told = put_field(&mut *out, 0, b"lead-ins ", n);
    put(out, told, b"\n")
}

fn put_operator(out: &mut [u8], at: usize, k: u64, n: u64) -> usize
    ensures { Adds out.old at (operator_text k n) out.new result }
{
    let named = put_field(&mut *out, at, b"operator ", k);
    let told = put_field(&mut *out, named, b" paid ", n);
    put(out, told, b"\n")
}
