// The cells of a map, each a class: the highest of what came of a stretch of the reel. A leaf for `reel_map`, and what the picture reads.
#![tactic(auto)]

ghost use Rattle.std.specs.Prelude.{◌≡◌, get_or};
ghost use Rattle.map_cells.specs.Cells.{higher, pair_in, raised, halved, RunEnd};

// The lowest class.
pub const NOTHING: u8 = 0;

// The cells from one to another have this class at least.
pub fn raise(cells: &mut [u8], from: usize, to: usize, class: u8)
    ensures { cells.new ≡ raised cells.old from to class }
{
    for i in from..cells.len() {
        if to < i {
            return;
        }
        cells[i] = cells[i].max(class);
    }
}

// Joins the cells in pairs.
pub fn halve(cells: &mut [u8])
    ensures { cells.new ≡ halved cells.old }
{
    for i in 0..cells.len() {
        cells[i] = pair(cells, i);
    }
}

fn pair(cells: &[u8], i: usize) -> u8
    ensures { result ≡ pair_in cells.now i }
{
    if cells.len() / 2 < i {
        return NOTHING;
    }
    class_at(cells, 2 * i).max(class_at(cells, 2 * i + 1))
}

// Where a run of equal cells ends that begins here, before `end` at the latest.
pub fn run_end(cells: &[u8], from: usize, end: usize) -> usize
    ensures { RunEnd cells.now from end result }
{
    let class = class_at(cells, from);
    for i in from..end {
        if class_at(cells, i) != class {
            return i;
        }
    }
    end.max(from)
}

// The class of a cell; nothing is there where the map ends.
pub fn class_at(cells: &[u8], i: usize) -> u8
    ensures { result ≡ get_or cells.now i 0 }
{
    *cells.get(i).unwrap_or(&NOTHING)
}
