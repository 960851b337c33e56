// A map of a reel: a cell stands for a stretch of its bytes, and has the highest class of what came of them.
#![tactic(auto)]

ghost use Rattle.std.specs.Prelude.{◌≡◌, ◌+◌, ◌*◌, ◌/◌, ◌^◌, ◌<◌};
ghost use Rattle.map_cells.specs.Cells.{raised};
ghost use Rattle.reel_map.specs.Drawing.{class_of, seen_in, looked, NextPromise};

use labelling::Tally;
use map_cells::{NOTHING, halve, raise};

// The classes above NOTHING, by rising rank. Of what a cell has, it shows the highest.
const GOOD: u8 = 1;

const PAID: u8 = 2;

const DAMAGED: u8 = 3;

const UNSYNCED: u8 = 4;

const STRAY: u8 = 5;

// A cell begins as a minor frame's length of the reel: 128 groups, each with five FILL.
const LENGTH: u64 = 1152;

const LIMIT: u64 = 1 << 62;

// The counts that tell a cell's class.
#[derive(Clone, Copy)]
pub struct Seen {
    pub stray: u64,
    pub split: u64,
    pub hunted: u64,
    pub unsynced: u64,
    pub damaged: u64,
    pub good: u64,
}

// How far a map is drawn.
#[derive(Clone, Copy)]
pub struct Map {
    // How many bytes of the reel a cell has, and before which byte of it the cell ends that is being read.
    pub length: u64,
    pub end: u64,
    // That cell, and the one in which the first minor frame of the run being built was closed.
    pub cell: usize,
    pub run: usize,
    // The counts as the cell began, and the run and the broken ones when last looked at.
    pub seen: Seen,
    pub building: u64,
    pub broken: u64,
}

// A map of which nothing is drawn; its cells are 0.
pub fn begin() -> Map {
    let seen = Seen {
        stray: 0,
        split: 0,
        hunted: 0,
        unsynced: 0,
        damaged: 0,
        good: 0,
    };
    Map {
        length: LENGTH,
        end: LENGTH,
        cell: 0,
        run: 0,
        seen: seen,
        building: 0,
        broken: 0,
    }
}

// A major frame is complete: the cells in which its minor frames were closed are paid.
pub fn complete(m: Map, t: Tally, cells: &mut [u8]) -> Map
    ensures { (result ≡ looked m t) × (cells.new ≡ raised cells.old result.run m.cell 2) }
{
    let r = look(m, t);
    raise(cells, r.run, m.cell, PAID);
    r
}

// The reel is read as far as the cell's end, or as its own: the cell has the class of what came since it began.
pub fn mark(m: Map, t: Tally, cells: &mut [u8])
    ensures { cells.new ≡ raised cells.old m.cell m.cell (class_of m.seen (seen_in t)) }
{
    let after = counts_of(t);
    let class = class_of(m.seen, after);
    raise(cells, m.cell, m.cell, class);
}

// The next cell. Where there is none, cells are joined in pairs, and each has twice as many bytes.
pub fn next(m: Map, t: Tally, cells: &mut [u8]) -> Map
    ensures { NextPromise m cells.old cells.new result }
{
    let cell = m.cell;
    if cells.len() <= cell {
        return m;
    }
    let after = cell + 1;
    if after < cells.len() {
        return moved(m, t, after);
    }
    halve(cells);
    widened(m, t, after)
}

fn moved(m: Map, t: Tally, cell: usize) -> Map
    ensures { (result.cell ≡ cell) × (result.length ≡ m.length) }
{
    let mut r = look(m, t);
    r.seen = counts_of(t);
    r.cell = cell;
    r.length = m.length;
    r.end = sum(m.end, m.length);
    r
}

fn widened(m: Map, t: Tally, cell: usize) -> Map
    ensures { (result.cell ≡ cell / 2) × (m.length < 2 ^ 61 → result.length ≡ 2 * m.length) }
{
    let mut r = look(m, t);
    r.seen = counts_of(t);
    r.cell = cell / 2;
    r.run = r.run / 2;
    r.length = sum(m.length, m.length);
    r.end = sum(m.end, r.length);
    r
}

// Where the run being built began: in this cell, where none was being built when last looked at, or that one is broken.
fn look(m: Map, t: Tally) -> Map
    ensures { result ≡ looked m t }
{
    let mut r = m;
    r.building = t.runs.building;
    r.broken = t.runs.broken;
    if m.building == 0 {
        r.run = m.cell;
        return r;
    }
    if m.broken != t.runs.broken {
        r.run = m.cell;
        return r;
    }
    r
}

// A sum, or 2^62 where it is as large or larger.
pub fn sum(a: u64, b: u64) -> u64
    ensures { a + b < 2 ^ 62 → result ≡ a + b }
{
    if LIMIT <= a {
        return LIMIT;
    }
    if LIMIT - a <= b {
        return LIMIT;
    }
    a + b
}

fn counts_of(t: Tally) -> Seen
    ensures { result ≡ seen_in t }
{
    Seen {
        stray: t.groups.stray,
        split: t.groups.split,
        hunted: t.framing.hunted,
        unsynced: t.framing.unsynced,
        damaged: t.framing.damaged,
        good: t.framing.good,
    }
}

// The class of what came between two tallies.
fn class_of(before: Seen, after: Seen) -> u8
    ensures { result ≡ class_of before after }
{
    if before.stray < after.stray {
        return STRAY;
    }
    if before.split < after.split {
        return STRAY;
    }
    if before.hunted < after.hunted {
        return UNSYNCED;
    }
    if before.unsynced < after.unsynced {
        return UNSYNCED;
    }
    if before.damaged < after.damaged {
        return DAMAGED;
    }
    if before.good < after.good {
        return GOOD;
    }
    NOTHING
}
