// Whether a tally is in order (paper 01, "The tally and one call"; paper 02, requests 2, 5 and 6). The tests are joined by `&` and `|`, which do not
// branch, in the order of the definition.
#![tactic(auto)]

ghost use Rattle.std.specs.Prelude.{◌≡◌};
ghost use Rattle.labelling.specs.Machine.{state_of};
ghost use Rattle.labelling.specs.Order.{weak_bounded, groups_bounded, few_weak, framing_bounded, framing_modes, runs_bounded, operators_bounded};
ghost use Rattle.labelling.specs.Order.{bytes_sum, words_sum, frames_sum, sums_hold, paid_sum, rule_in_order, in_order};
ghost use Rattle.order.specs.Room.{GroupsRoom, FramingRoom, RunsRoom, StateRoom, OperatorsRoom};

use labelling::{Framing, Groups, Operators, Runs, Tally, Weak};

// No count is above 2^40.
pub const LIMIT: u64 = 1 << 40;

fn weak_bounded(w: Weak) -> bool
    ensures { result ≡ weak_bounded w }
{
    (w.first <= LIMIT) & (w.second <= LIMIT) & (w.third <= LIMIT)
}

fn groups_bounded(g: Groups) -> bool
    ensures { result ≡ groups_bounded g }
{
    (g.bytes <= LIMIT)
        & (g.fill <= LIMIT)
        & (g.stray <= LIMIT)
        & (g.voted <= LIMIT)
        & (g.split <= LIMIT)
        & weak_bounded(g.weak)
        & (g.open <= 3)
}

fn framing_bounded(f: Framing) -> bool
    ensures { result ≡ framing_bounded f }
{
    (f.hunted <= LIMIT)
        & (f.good <= LIMIT)
        & (f.damaged <= LIMIT)
        & (f.unsynced <= LIMIT)
        & (f.placed <= 127)
        & (f.matched <= 2)
}

fn framing_modes(f: Framing) -> bool
    ensures { result ≡ framing_modes f }
{
    (f.hunting | (f.matched == 0)) & (!f.hunting | (f.placed == 0)) & ((f.placed != 0) | !f.erasure)
}

fn runs_bounded(r: Runs) -> bool
    ensures { result ≡ runs_bounded r }
{
    (r.majors <= LIMIT) & (r.broken <= LIMIT) & (r.loose <= LIMIT) & (r.building <= 127)
}

// Each of the eight counts; on duty is one of the eight.
fn operators_bounded(o: Operators) -> bool
    ensures { result ≡ operators_bounded o }
{
    let p = o.paid;
    (p[0] <= LIMIT)
        & (p[1] <= LIMIT)
        & (p[2] <= LIMIT)
        & (p[3] <= LIMIT)
        & (p[4] <= LIMIT)
        & (p[5] <= LIMIT)
        & (p[6] <= LIMIT)
        & (p[7] <= LIMIT)
        & (o.duty <= 7)
}

fn bytes_sum(g: Groups) -> bool
    requires { GroupsRoom g }
    ensures { result ≡ bytes_sum g }
{
    g.bytes == g.fill + g.stray + 4 * g.voted + 4 * g.split + g.open
}

// No more weak copies than voted groups.
fn few_weak(g: Groups) -> bool
    requires { GroupsRoom g }
    ensures { result ≡ few_weak g }
{
    g.weak.first + g.weak.second + g.weak.third <= g.voted
}

fn words_sum(words: u64, f: Framing) -> bool
    requires { FramingRoom f }
    ensures { result ≡ words_sum words f }
{
    words == f.hunted + 128 * (f.good + f.damaged + f.unsynced) + f.placed
}

fn frames_sum(good: u64, r: Runs) -> bool
    requires { RunsRoom r }
    ensures { result ≡ frames_sum good r }
{
    good == 128 * r.majors + r.broken + r.loose + r.building
}

// The eight add up to the major frames.
fn paid_sum(majors: u64, o: Operators) -> bool
    requires { OperatorsRoom o }
    ensures { result ≡ paid_sum majors o }
{
    let p = o.paid;
    majors == p[0] + p[1] + p[2] + p[3] + p[4] + p[5] + p[6] + p[7]
}

// The sums, where the counts are known to be within the limit.
fn sums(t: Tally) -> bool
    requires { StateRoom (state_of t) }
    ensures { result ≡ sums_hold (state_of t) }
{
    let words = t.groups.voted + t.groups.split;
    bytes_sum(t.groups) & words_sum(words, t.framing) & frames_sum(t.framing.good, t.runs)
}

// The rule is 1 or 2, and under rule 2 there is no split.
fn rule_in_order(rule: u64, split: u64) -> bool
    ensures { result ≡ rule_in_order rule split }
{
    ((rule == 1) | (rule == 2)) & ((rule != 2) | (split == 0))
}

pub fn in_order(t: Tally) -> bool
    ensures { result ≡ in_order t }
{
    let bounded = groups_bounded(t.groups)
        & framing_bounded(t.framing)
        & runs_bounded(t.runs)
        & operators_bounded(t.operators);
    if !bounded {
        return false;
    }
    framing_modes(t.framing)
        & sums(t)
        & few_weak(t.groups)
        & (!t.framing.hunting | (t.runs.building == 0))
        & paid_sum(t.runs.majors, t.operators)
        & rule_in_order(t.rule, t.groups.split)
}
