// Whether the numbers of a tally are in order, tested where they lie. Only the bytes are held against the limit of 2^40 itself: where the sums hold,
// each other count is at most the bytes. Before a sum its counts are held against a wider bound, all at once by `|`, so that it does not run over.
#![tactic(auto)]

ghost use Rattle.std.specs.Prelude.{◌≡◌, true, ◌&&◌, List, ℕ, ◌+◌, ◌≤◌, ◌^◌, get_or};
ghost use Rattle.labelling.specs.Order.{few_weak, paid_sum, rule_in_order, in_order};
ghost use Rattle.tally_numbers.specs.Numbers.{is_tally, groups_of, framing_of, runs_of, operators_of, tally_of};
ghost use Rattle.number_order.specs.Sums.{groups_add, framing_adds, runs_add, modes_agree};

use order::LIMIT;
use tally_numbers::NUMBERS;

// Above every count in order, and no sum of counts up to it runs over.
const WIDE: u64 = 1 << 50;

// Bytes, fill, stray, voted, split and open.
fn groups_in_order(n: &[u64; NUMBERS]) -> bool
    ensures { result ≡ groups_add (groups_of n.now) }
{
    if (LIMIT < n[0]) | (WIDE < (n[1] | n[2] | n[3] | n[4])) | (3 < n[5]) {
        return false;
    }
    n[0] == n[1] + n[2] + 4 * (n[3] + n[4]) + n[5]
}

// The three weak copies, no more than the voted groups.
fn weak_in_order(n: &[u64; NUMBERS]) -> bool
    requires { (groups_of n.now).voted ≤ 2 ^ 40 }
    ensures { result ≡ few_weak (groups_of n.now) }
{
    if WIDE < (n[20] | n[21] | n[22]) {
        return false;
    }
    n[20] + n[21] + n[22] <= n[3]
}

// Hunted, good, damaged, unsynced and placed, and the match.
fn framing_in_order(n: &[u64; NUMBERS]) -> bool
    requires { (groups_of n.now).voted + (groups_of n.now).split ≤ 2 ^ 40 }
    ensures { result ≡ framing_adds ((groups_of n.now).voted + (groups_of n.now).split) (framing_of n.now) }
{
    if (WIDE < (n[8] | n[9] | n[10] | n[11])) | (127 < n[12]) | (2 < n[14]) {
        return false;
    }
    n[3] + n[4] == n[8] + 128 * (n[9] + n[10] + n[11]) + n[12]
}

// Majors, broken, loose and building.
fn runs_in_order(n: &[u64; NUMBERS]) -> bool
    requires { (framing_of n.now).good ≤ 2 ^ 40 }
    ensures { result ≡ runs_add (framing_of n.now).good (runs_of n.now) }
{
    if (WIDE < (n[16] | n[17] | n[18])) | (127 < n[19]) {
        return false;
    }
    n[9] == 128 * n[16] + n[17] + n[18] + n[19]
}

// The eight paid counts.
fn operators_in_order(n: &[u64; NUMBERS]) -> bool
    requires { (runs_of n.now).majors ≤ 2 ^ 40 }
    ensures { result ≡ paid_sum (runs_of n.now).majors (operators_of n.now) }
{
    if WIDE < (n[23] | n[24] | n[25] | n[26] | n[27] | n[28] | n[29] | n[30]) {
        return false;
    }
    n[16] == n[23] + n[24] + n[25] + n[26] + n[27] + n[28] + n[29] + n[30]
}

// Hunting: nothing is placed, marked or in building. Else the match is 0, and an erasure is marked only where something is placed.
fn modes_in_order(n: &[u64; NUMBERS]) -> bool
    requires { is_tally n.now ≡ true }
    ensures { result ≡ modes_agree (framing_of n.now) (runs_of n.now) }
{
    if n[13] == 1 {
        return (n[12] | n[15] | n[19]) == 0;
    }
    if n[14] != 0 {
        return false;
    }
    (n[12] != 0) | (n[15] == 0)
}

// The rule is 1 or 2, and under rule 2 there is no split.
fn rule_in_order(n: &[u64; NUMBERS]) -> bool
    ensures { result ≡ rule_in_order (get_or n.now 32 0) (groups_of n.now).split }
{
    if n[32] == 1 {
        return true;
    }
    (n[32] == 2) & (n[4] == 0)
}

// Whether these are the numbers of a tally in order, whatever its frame. A test of a layer stands on those before it.
pub fn in_order(n: &[u64; NUMBERS]) -> bool
    ensures { (frame : List ℕ) → result ≡ (is_tally n.now && in_order (tally_of n.now frame)) }
{
    if !tally_numbers::is_tally(n) {
        return false;
    }
    if !groups_in_order(n) {
        return false;
    }
    if !weak_in_order(n) {
        return false;
    }
    if !framing_in_order(n) {
        return false;
    }
    if !runs_in_order(n) {
        return false;
    }
    if !operators_in_order(n) {
        return false;
    }
    if 7 < n[31] {
        return false;
    }
    if !modes_in_order(n) {
        return false;
    }
    rule_in_order(n)
}
