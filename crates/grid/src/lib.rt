// n × n cells of s words, without knowledge of what a cell means: where a cell lies, the cell lent as a part, and the step
// from one cell to the next with its pair.
#![tactic(auto)]

ghost use Rattle.std.specs.Prelude.{◌≡◌, ◌+◌, ◌*◌, ◌≤◌, ◌<◌, length};
ghost use Rattle.rules.specs.Limits.{max_animals, max_cell_words, max_cells};
ghost use Rattle.grid.specs.Cells.{cell_in};
ghost use Rattle.grid.specs.Steps.{first_cell, next_cell};

// Where cell (x, y) begins.
pub fn start(n: usize, size: usize, x: usize, y: usize) -> usize
    requires n_le_max_animals { (n ≤ max_animals) × (size ≤ max_cell_words) }
    requires x_lt_n { (x < n) × (y < n) }
    ensures { result ≡ (x * n + y) * size }
{
    (x * n + y) * size
}

// The words of cell (x, y).
pub fn cell(body: &[u32], n: usize, size: usize, x: usize, y: usize) -> &[u32]
    requires n_le_max_animals { (n ≤ max_animals) × (size ≤ max_cell_words) × (length body.now ≡ n * n * size) }
    requires x_lt_n { (x < n) × (y < n) }
    ensures { result.now ≡ cell_in n size body.now x y }
{
    let at = start(n, size, x, y);
    &body[at..at + size]
}

// A cell: where it begins, and its pair.
#[derive(Clone, Copy)]
pub struct CellPlace {
    pub at: usize,
    pub from: u32,
    pub to: u32,
}

// The first cell, that of (0, 0).
pub fn first_cell() -> CellPlace
    ensures { result ≡ first_cell }
{
    CellPlace {
        at: 0,
        from: 0,
        to: 0,
    }
}

// The cell after this one, of `size` words, among n animals.
pub fn next_cell(here: CellPlace, n: u32, size: usize) -> CellPlace
    requires at_bound { (here.at ≤ max_cells * max_cell_words) × (size ≤ max_cell_words) }
    requires from_lt_n { (here.from < n) × (here.to < n) }
    ensures { result ≡ next_cell n size here }
{
    let at = here.at + size;
    let to = here.to + 1;
    if to < n {
        let from = here.from;
        return CellPlace { at, from, to };
    }
    let from = here.from + 1;
    CellPlace { at, from, to: 0 }
}
