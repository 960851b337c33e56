// Stretches of a piece, taken many bytes at a time: what the crates nominal, voted and quiet find is added to the counts at once. It is what plain steps
// would have done.
ghost use Rattle.std.specs.Prelude.{◌≡◌, true, false, List, ℕ, ◌+◌, ◌*◌, ◌-◌, ◌≤◌, ◌<◌, ◌^◌, length, get_or};
ghost use Rattle.nominal.specs.Effect.{with_words, with_quiet};
ghost use Rattle.order.specs.Room.{GroupsRoom, FramingRoom};
ghost use Rattle.plain_steps.specs.Shapes.{state_with};
ghost use Rattle.reader_run.specs.Onward.{Fits, Begun, Reaches, ReachesAnyFrame, Words, VotedGroups, WeakRoom, both_weak, opened as openedWith, ByteOr};
ghost use Rattle.voted.specs.Copies.{Copies};
ghost use Rattle.voted.specs.Effect.{with_voted};

use base::format::SYNC;
use labelling::{Groups, Weak};
use plain_steps::Layers;

// The last place of a frame is left to the plain step.
const LAST_PLACE: u64 = 127;

// How far a stretch leads. Nothing is complete there.
#[derive(Clone, Copy)]
pub(crate) struct Reached {
    pub(crate) layers: Layers,
    pub(crate) at: usize,
}

// n bytes more: FILL, and a group for each of w words, of which x is the last.
fn after_words(g: Groups, n: u64, w: u64, x: u8) -> Groups
    requires { GroupsRoom g × (n ≤ 2 ^ 40) × (4 * w ≤ n) }
    ensures { (ws : List ℕ) → Words ws w x → result ≡ with_words g n ws }
{
    let mut next = g;
    next.bytes += n;
    next.fill += n - 4 * w;
    next.voted += w;
    if w == 0 {
        return next;
    }
    next.first = x;
    next.second = x;
    next
}

fn more_weak(w: Weak, more: Weak) -> Weak
    requires { WeakRoom w × WeakRoom more }
    ensures { result ≡ both_weak w more }
{
    Weak {
        first: w.first + more.first,
        second: w.second + more.second,
        third: w.third + more.third,
    }
}

// n bytes more: k stray ones, FILL, and w voted groups with these weak copies; x and y are the first copies of the last of them.
fn after_voted(g: Groups, n: u64, k: u64, w: u64, weak: Weak, x: u8, y: u8) -> Groups
    requires { GroupsRoom g × (n ≤ 2 ^ 40) × (4 * w + k ≤ n) × WeakRoom weak }
    ensures { (gs : List Copies) → VotedGroups gs w weak x y → result ≡ with_voted g n k gs }
{
    let mut next = g;
    next.bytes += n;
    next.fill += n - 4 * w - k;
    next.stray += k;
    next.voted += w;
    if w == 0 {
        return next;
    }
    next.weak = more_weak(g.weak, weak);
    next.first = x;
    next.second = y;
    next
}

// n bytes more, none of them SYNC, and k of them stray.
fn after_quiet(g: Groups, n: u64, k: u64) -> Groups
    requires { GroupsRoom g × (n ≤ 2 ^ 40) × (k ≤ n) }
    ensures { result ≡ with_quiet g n k }
{
    let mut next = g;
    next.bytes += n;
    next.fill += n - k;
    next.stray += k;
    next
}

// The first n bytes of a group more: SYNC, and copies after it. x and y are the first two copies, as far as they are known.
fn opened(g: Groups, n: u64, x: u8, y: u8) -> Groups
    requires { (g.bytes ≤ 2 ^ 40) × (n ≤ 3) }
    ensures { result ≡ openedWith g n x y }
{
    let mut next = g;
    next.bytes += n;
    next.open = n;
    next.first = x;
    next.second = y;
    next
}

// The last word of the frame.
fn last_of(frame: &[u8; 128], placed: usize) -> u8
    requires { placed ≤ 127 }
    ensures { 0 < placed → result ≡ get_or frame.now (placed - 1) 0 }
{
    if placed == 0 {
        return 0;
    }
    frame[placed - 1]
}

// A nominal stretch while words are placed.
fn place_run(l: Layers, piece: &[u8], at: usize, frame: &mut [u8; 128]) -> Reached
    requires begun { Begun piece.now at (state_with l frame.old) }
    requires open_value { (l.groups.«open» ≡ 0) × (l.framing.hunting ≡ false) }
    ensures reaches { Reaches piece.now at (state_with l frame.old) result.at (state_with result.layers frame.new) }
    ensures open_value_2 { result.layers.groups.«open» ≡ 0 }
{
    let start = l.framing.placed as usize;
    let r = nominal::place(piece, at, start, frame);
    let mut next = l;
    next.groups = after_words(
        l.groups,
        (r.at - at) as u64,
        (r.placed - start) as u64,
        last_of(frame, r.placed),
    );
    next.framing.placed = r.placed as u64;
    Reached {
        layers: next,
        at: r.at,
    }
}

// A voted stretch while words are placed.
fn voted_run(l: Layers, piece: &[u8], at: usize, frame: &mut [u8; 128]) -> Reached
    requires begun { Begun piece.now at (state_with l frame.old) }
    requires open_value { (l.groups.«open» ≡ 0) × (l.framing.hunting ≡ false) }
    ensures reaches { Reaches piece.now at (state_with l frame.old) result.at (state_with result.layers frame.new) }
    ensures open_value_2 { result.layers.groups.«open» ≡ 0 }
{
    let start = l.framing.placed as usize;
    let r = voted::place(piece, at, start, frame);
    let mut next = l;
    next.groups = after_voted(
        l.groups,
        (r.at - at) as u64,
        r.stray,
        (r.placed - start) as u64,
        r.weak,
        r.first,
        r.second,
    );
    next.framing.placed = r.placed as u64;
    Reached {
        layers: next,
        at: r.at,
    }
}

// A nominal stretch while the sync is hunted. Where some of it is matched already, the next word is left to the plain step.
fn hunt_run(l: Layers, piece: &[u8], at: usize) -> Reached
    requires groups_room { GroupsRoom l.groups × FramingRoom l.framing × Fits l.groups piece.now at }
    requires open_value { (l.groups.«open» ≡ 0) × (l.framing.hunting ≡ true) }
    ensures reaches_any_frame { ReachesAnyFrame piece.now at l result.at result.layers }
    ensures open_value_2 { result.layers.groups.«open» ≡ 0 }
{
    if l.framing.matched != 0 {
        return Reached { layers: l, at: at };
    }
    let r = nominal::pass(piece, at);
    let mut next = l;
    next.groups = after_words(l.groups, (r.at - at) as u64, r.count, r.last);
    let mut f = l.framing;
    f.hunted += r.count;
    next.framing = f;
    Reached {
        layers: next,
        at: r.at,
    }
}

// A voted stretch while the sync is hunted. Where some of it is matched already, the next word is left to the plain step.
fn voted_hunt(l: Layers, piece: &[u8], at: usize) -> Reached
    requires groups_room { GroupsRoom l.groups × FramingRoom l.framing × Fits l.groups piece.now at }
    requires open_value { (l.groups.«open» ≡ 0) × (l.framing.hunting ≡ true) }
    ensures reaches_any_frame { ReachesAnyFrame piece.now at l result.at result.layers }
    ensures open_value_2 { result.layers.groups.«open» ≡ 0 }
{
    if l.framing.matched != 0 {
        return Reached { layers: l, at: at };
    }
    let r = voted::pass(piece, at);
    let mut next = l;
    next.groups = after_voted(
        l.groups,
        (r.at - at) as u64,
        r.stray,
        r.count,
        r.weak,
        r.first,
        r.second,
    );
    let mut f = l.framing;
    f.hunted += r.count;
    next.framing = f;
    Reached {
        layers: next,
        at: r.at,
    }
}

// What is nominal from `at` on. It may be nothing.
fn nominal_run(l: Layers, piece: &[u8], at: usize, frame: &mut [u8; 128]) -> Reached
    requires begun { Begun piece.now at (state_with l frame.old) }
    requires open_value { l.groups.«open» ≡ 0 }
    ensures reaches { Reaches piece.now at (state_with l frame.old) result.at (state_with result.layers frame.new) }
    ensures open_value_2 { result.layers.groups.«open» ≡ 0 }
{
    if l.framing.hunting {
        return hunt_run(l, piece, at);
    }
    place_run(l, piece, at, frame)
}

// What stands before the next SYNC: most often nothing, which is seen here, since a call would cost more than the test.
fn quiet_run(l: Layers, piece: &[u8], at: usize) -> Reached
    requires groups_room { GroupsRoom l.groups × Fits l.groups piece.now at }
    requires open_value { l.groups.«open» ≡ 0 }
    ensures reaches_any_frame { ReachesAnyFrame piece.now at l result.at result.layers }
    ensures open_value_2 { result.layers.groups.«open» ≡ 0 }
{
    if piece.len() <= at {
        return Reached { layers: l, at: at };
    }
    if piece[at] == SYNC {
        return Reached { layers: l, at: at };
    }
    let skipped = quiet::skip(piece, at);
    let mut next = l;
    next.groups = after_quiet(l.groups, (skipped.at - at) as u64, skipped.stray);
    Reached {
        layers: next,
        at: skipped.at,
    }
}

// From a group with a bad copy, or one after a stray byte, all that is voted, whatever stands between.
fn any_voted(l: Layers, piece: &[u8], at: usize, frame: &mut [u8; 128]) -> Reached
    requires begun { Begun piece.now at (state_with l frame.old) }
    requires open_value { l.groups.«open» ≡ 0 }
    ensures reaches { Reaches piece.now at (state_with l frame.old) result.at (state_with result.layers frame.new) }
    ensures open_value_2 { result.layers.groups.«open» ≡ 0 }
{
    if !voted::group_stands(piece, at) {
        return Reached { layers: l, at: at };
    }
    if l.framing.hunting {
        return voted_hunt(l, piece, at);
    }
    if l.framing.placed == LAST_PLACE {
        return Reached { layers: l, at: at };
    }
    voted_run(l, piece, at, frame)
}

// The byte at `at`, or `other` where the piece has none there.
fn byte_or(piece: &[u8], at: usize, other: u8) -> u8
    ensures { ByteOr piece.now at other result }
{
    if piece.len() <= at {
        return other;
    }
    piece[at]
}

// The last bytes of a piece that ends within a group, from its SYNC on.
fn open_last(l: Layers, piece: &[u8], at: usize) -> Reached
    requires groups_room { GroupsRoom l.groups × Fits l.groups piece.now at × (length piece.now ≤ at + 3) }
    requires open_value { l.groups.«open» ≡ 0 }
    ensures { ReachesAnyFrame piece.now at l result.at result.layers }
{
    if piece.len() <= at {
        return Reached { layers: l, at: at };
    }
    if piece[at] != SYNC {
        return Reached { layers: l, at: at };
    }
    let n = (piece.len() - at) as u64;
    let x = byte_or(piece, at + 1, l.groups.first);
    let y = byte_or(piece, at + 2, l.groups.second);
    let mut next = l;
    next.groups = opened(l.groups, n, x, y);
    Reached {
        layers: next,
        at: piece.len(),
    }
}

// Where a whole group stands, its SYNC and two copies; where the piece ends within one, all that is there of it.
fn open_group(l: Layers, piece: &[u8], at: usize) -> Reached
    requires groups_room { GroupsRoom l.groups × Fits l.groups piece.now at }
    requires open_value { l.groups.«open» ≡ 0 }
    ensures { ReachesAnyFrame piece.now at l result.at result.layers }
{
    if piece.len() - at < 4 {
        return open_last(l, piece, at);
    }
    if piece[at] != SYNC {
        return Reached { layers: l, at: at };
    }
    let mut next = l;
    next.groups = opened(l.groups, 3, piece[at + 1], piece[at + 2]);
    Reached {
        layers: next,
        at: at + 3,
    }
}

// Whether the group of the last place comes next, as where a frame is nominal.
fn last_comes(placed: u64, piece: &[u8], at: usize) -> bool {
    if placed != LAST_PLACE {
        return false;
    }
    if piece.len() <= at {
        return false;
    }
    piece[at] == SYNC
}

// As far as nothing can close but voted groups before the last place: up to the third copy of any other group, a group that is open already, or
// the end of the piece.
pub(crate) fn reach(l: Layers, piece: &[u8], at: usize, frame: &mut [u8; 128]) -> Reached
    requires { Begun piece.now at (state_with l frame.old) }
    ensures { Reaches piece.now at (state_with l frame.old) result.at (state_with result.layers frame.new) }
{
    if l.groups.open != 0 {
        return Reached { layers: l, at: at };
    }
    let nominal = nominal_run(l, piece, at, frame);
    let first = nominal.layers;
    // Nothing stands before it, and it is left to the plain step: no other stretch is looked for.
    if last_comes(first.framing.placed, piece, nominal.at) {
        return open_group(first, piece, nominal.at);
    }
    let before = quiet_run(first, piece, nominal.at);
    let second = before.layers;
    let voted = any_voted(second, piece, before.at, frame);
    let third = voted.layers;
    open_group(third, piece, voted.at)
}
