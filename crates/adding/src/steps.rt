// Every pair's interval enters its cell.
ghost use Rattle.std.specs.Prelude.{◌≡◌, ◌+◌, ◌*◌, ◌≤◌, ◌<◌, length};
ghost use Rattle.rules.specs.Limits.{max_arrival};
ghost use Rattle.rules.specs.Folds.{sum_below, count_below};
ghost use Rattle.grid.specs.Parts.{parts};
ghost use Rattle.grid.specs.Cells.{Grid, CellsFrom};
ghost use Rattle.cells.specs.Stored.{Stored};
ghost use Rattle.adding.specs.Steps.{Below, entered, entered_at, entered_from, changes, changes_at, changes_from};

use journeys::Interval;
use tables::Opening;

// [d, a] enters cell (x, y), where x is not y and there is an arrival a: whether the cell changed.
fn enter_cell(cell: &mut [u32], x: usize, y: usize, d: u32, a: u32) -> bool
    requires stored { Stored cell.old }
    requires le_d { (1 ≤ d) × (d < length cell.old) × (a ≤ max_arrival) }
    ensures value { result ≡ changes x y d a cell.old }
    ensures cell_after { cell.new ≡ entered x y d a cell.old }
{
    if x == y || a == 0 {
        return false;
    }
    let interval = Interval {
        departure: d,
        arrival: a,
    };
    entering::enters(cell, interval)
}

// Where there is a departure d of x, [d, e(y)] enters each cell (x, y) from x; how many cells changed.
// The cells are written by number: of the parts that `chunks_exact_mut` lends nothing is known afterwards.
fn enter_cells_from(
    cells: &mut [u32],
    n: usize,
    size: usize,
    x: usize,
    d: u32,
    e: &[u32; Opening::MAX_ANIMALS as usize],
) -> u32
    requires cells_from { CellsFrom Stored n size cells.old }
    requires d_lt_size { (d < size) × Below n (max_arrival + 1) e.now }
    ensures value { result ≡ count_below (changes_at size x d e.now cells.old) n }
    ensures cells_after { cells.new ≡ parts (entered_at x d e.now) size n cells.old }
{
    if d == 0 {
        return 0;
    }
    let mut changed = 0;
    for y in 0..n {
        let at = y * size;
        changed += u32::from(enter_cell(&mut cells[at..at + size], x, y, d, e[y]));
    }
    changed
}

// [d(x), e(y)] enters each cell (x, y); how many cells changed.
// By number, as the cells from one animal.
pub(crate) fn enter_all_cells(
    body: &mut [u32],
    n: usize,
    size: usize,
    d: &[u32; Opening::MAX_ANIMALS as usize],
    e: &[u32; Opening::MAX_ANIMALS as usize],
) -> u32
    requires grid { Grid Stored n size body.old }
    requires below { Below n size d.now × Below n (max_arrival + 1) e.now }
    ensures value { result ≡ sum_below (changes_from n size d.now e.now body.old) n }
    ensures body_after { body.new ≡ parts (entered_from n size d.now e.now) (n * size) n body.old }
{
    let width = n * size;
    let mut changed = 0;
    for x in 0..n {
        let at = x * width;
        changed += enter_cells_from(&mut body[at..at + width], n, size, x, d[x], e);
    }
    changed
}
