// The opening of a table with its limits, the checks of an open table, its cells, and the words of a table just opened.
#![tactic(auto)]

ghost use Rattle.std.specs.Prelude.{◌≡◌, true, [], ◌+◌, ◌-◌, ◌*◌, ◌≤◌, ◌<◌, length};
ghost use Rattle.words.specs.Words.{animals_of, ticks_of, carry_of};
ghost use Rattle.rules.specs.Limits.{max_animals, max_ticks, max_carry};
ghost use Rattle.rules.specs.Folds.{within};
ghost use Rattle.rules.specs.Layout.{table_length, cell_words, table_words, animals, ticks, cell_at};
ghost use Rattle.rules.specs.Checks.{is_open, well_formed, ValidTable};
ghost use Rattle.rules.specs.Opening.{Sizes, no_intervals};
ghost use Rattle.grid.specs.Parts.{parts};
ghost use Rattle.tables.specs.Openings.{made};
ghost use Rattle.tables.specs.Cells.{most_rows, cells_from_well_formed, all_cells_well_formed, emptied};

mod checked;

pub use checked::Table;
use rules::Refusal;

// The opening of a table: how many animals, how many ticks, and the carry time.
#[derive(Clone, Copy)]
pub struct Opening {
    pub animals: u32,
    pub ticks: u32,
    pub carry: u32,
}

// Whether the number is from 1 to `most`.
pub fn is_within(k: u32, most: u32) -> bool
    ensures { result ≡ within 1 k most }
{
    1 <= k && k <= most
}

impl Opening {
    // The most animals, the most ticks and the longest carry time; each number is at least 1.
    pub const MAX_ANIMALS: u32 = 256;

    pub const MAX_TICKS: u32 = 1024;

    pub const MAX_CARRY: u32 = 256;

    // The most contacts of a chain, n−1.
    pub const MAX_CHAIN: usize = Opening::MAX_ANIMALS as usize - 1;

    // The opening of three numbers, refused when one is beyond its limits.
    pub fn new(animals: u32, ticks: u32, carry: u32) -> Result<Opening, Refusal>
        ensures { result ≡ made animals ticks carry }
    {
        if !is_within(animals, Opening::MAX_ANIMALS) {
            return Err(Refusal::AnimalsBeyondLimit);
        }
        if !is_within(ticks, Opening::MAX_TICKS) {
            return Err(Refusal::TicksBeyondLimit);
        }
        if !is_within(carry, Opening::MAX_CARRY) {
            return Err(Refusal::CarryBeyondLimit);
        }
        Ok(Opening {
            animals,
            ticks,
            carry,
        })
    }

    // The opening that an opening word says; a word's fields never go beyond the limits.
    pub fn of_word(w: u32) -> Opening
        ensures { (result.animals ≡ animals_of w) × (result.ticks ≡ ticks_of w) × (result.carry ≡ carry_of w) }
    {
        Opening {
            animals: words::animals_of(w),
            ticks: words::ticks_of(w),
            carry: words::carry_of(w),
        }
    }

    // The number of words of the table.
    pub fn table_length(self) -> usize
        requires { (self.animals ≤ max_animals) × (self.ticks ≤ max_ticks) }
        ensures { result ≡ table_length self.animals self.ticks }
    {
        let n = self.animals as usize;
        let s = self.ticks as usize + 1;
        1 + n * n * s
    }
}

// Whether an opening word stands first and the length is the one for it.
pub fn is_open(table: &[u32]) -> bool
    ensures { result ≡ is_open table.now }
{
    let Some(w) = table.first() else {
        return false;
    };
    words::is_opening(*w) && table.len() == Opening::of_word(*w).table_length()
}

// The most rows in use that cell (u, v) may have: none where u is v.
fn most_rows(u: usize, v: usize, ticks: u32) -> u32
    ensures { result ≡ most_rows ticks u v }
{
    if u == v { 0 } else { ticks }
}

// Whether the n cells from animal u are well formed.
fn cells_from_well_formed(body: &[u32], u: usize, n: usize, ticks: u32, carry: u32) -> bool
    requires few { (u < n) × (n ≤ max_animals) × (ticks ≤ max_ticks) × (carry ≤ max_carry) }
    requires body_len { length body.now ≡ n * (n * (ticks + 1)) }
    ensures { result ≡ cells_from_well_formed ticks carry n body.now u }
{
    let size = ticks as usize + 1;
    let width = n * size;
    let at = u * width;
    for (v, cell) in body[at..at + width].chunks_exact(size).enumerate() {
        if !cell_checks::is_well_formed(cell, ticks, carry, most_rows(u, v, ticks)) {
            return false;
        }
    }
    true
}

// Whether the n × n cells are well formed.
// From animal to animal: the two animals of a cell are known without a division for each cell.
fn all_cells_well_formed(body: &[u32], n: usize, ticks: u32, carry: u32) -> bool
    requires few { (n ≤ max_animals) × (ticks ≤ max_ticks) × (carry ≤ max_carry) }
    requires body_len { length body.now ≡ n * (n * (ticks + 1)) }
    ensures { result ≡ all_cells_well_formed ticks carry n body.now }
{
    for u in 0..n {
        if !cells_from_well_formed(body, u, n, ticks, carry) {
            return false;
        }
    }
    true
}

// Whether every cell is well formed.
pub fn well_formed(table: &[u32]) -> bool
    requires { is_open table.now ≡ true }
    ensures { result ≡ well_formed table.now }
{
    let o = Opening::of_word(table[0]);
    all_cells_well_formed(&table[1..], o.animals as usize, o.ticks, o.carry)
}

// The words of cell (u, v).
pub fn cell(table: &[u32], u: u32, v: u32) -> &[u32]
    requires valid_table { ValidTable table.now }
    requires u_bound { (u < animals table.now) × (v < animals table.now) }
    ensures { result.now ≡ cell_at (animals table.now) (ticks table.now) table.now u v }
{
    let o = Opening::of_word(table[0]);
    let n = o.animals as usize;
    let size = o.ticks as usize + 1;
    grid::cell(&table[1..], n, size, u as usize, v as usize)
}

// Writes an empty cell: a count of no rows, and unused words.
fn write_empty(cell: &mut [u32])
    requires { 1 ≤ length cell.old }
    ensures { cell.new ≡ cell_words (length cell.old - 1) [] }
{
    cell.fill(words::unused_word());
    cell[0] = words::count_word(0);
}

// Makes the first `count` cells of `size` words empty.
// By number: of the parts that `chunks_exact_mut` lends nothing is known afterwards.
fn write_cells(body: &mut [u32], size: usize, count: usize)
    requires { (1 ≤ size) × (count * size ≤ length body.old) }
    ensures { body.new ≡ parts emptied size count body.old }
{
    for k in 0..count {
        let at = k * size;
        write_empty(&mut body[at..at + size]);
    }
}

// Writes the whole table: the opening word, and every cell empty.
pub fn write_opened(table: &mut [u32], opening: Opening)
    requires sizes { Sizes opening.animals opening.ticks opening.carry }
    requires table_len { length table.old ≡ table_length opening.animals opening.ticks }
    ensures { table.new ≡ table_words opening.animals opening.ticks opening.carry no_intervals }
{
    let n = opening.animals as usize;
    let size = opening.ticks as usize + 1;
    table[0] = words::opening_word(opening.animals, opening.ticks, opening.carry);
    write_cells(&mut table[1..], size, n * n);
}
