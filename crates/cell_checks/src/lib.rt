// The check of one cell in lent memory: a row, the rows in use, the unused words, and the whole cell.
#![tactic(auto)]

ghost use Rattle.std.specs.Prelude.{◌≡◌, ◌+◌, ◌≤◌, length};
ghost use Rattle.rules.specs.Limits.{max_ticks, max_carry};
ghost use Rattle.rules.specs.Checks.{row_well_formed, rows_well_formed, all_unused, cell_well_formed};

// Whether the word is an interval in its limits that departs after p and arrives after q. An arrival from departure +
// carry to ticks + carry has a departure of at most ticks.
fn row_well_formed(w: u32, ticks: u32, carry: u32, p: u32, q: u32) -> bool
    requires { (ticks ≤ max_ticks) × (carry ≤ max_carry) }
    ensures { result ≡ row_well_formed ticks carry p q w }
{
    let d = words::departure_of(w);
    let a = words::arrival_of(w);
    words::is_interval(w) && p < d && q < a && d + carry <= a && a <= ticks + carry
}

// Whether the rows are intervals in their limits whose departures and arrivals rise.
fn rows_well_formed(rows: &[u32], ticks: u32, carry: u32) -> bool
    requires { (ticks ≤ max_ticks) × (carry ≤ max_carry) }
    ensures { result ≡ rows_well_formed ticks carry 0 0 rows.now }
{
    let mut p = 0;
    let mut q = 0;
    for w in rows {
        if !row_well_formed(*w, ticks, carry, p, q) {
            return false;
        }
        p = words::departure_of(*w);
        q = words::arrival_of(*w);
    }
    true
}

// Whether every word is unused: their bits are joined, and the result is tested once.
fn all_unused(rest: &[u32]) -> bool
    ensures { result ≡ all_unused rest.now }
{
    words::is_unused(rest.iter().fold(0, |joined, w| joined | *w))
}

// Whether the words are a well-formed cell with at most `most` rows in use.
pub fn is_well_formed(cell: &[u32], ticks: u32, carry: u32, most: u32) -> bool
    requires { (most + 1 ≤ length cell.now) × (ticks ≤ max_ticks) × (carry ≤ max_carry) × (most ≤ max_ticks) }
    ensures { result ≡ cell_well_formed ticks carry most cell.now }
{
    let w = cell[0];
    if !words::is_count(w) {
        return false;
    }
    let rows = words::rows_of(w);
    if most < rows {
        return false;
    }
    let end = rows as usize + 1;
    if !rows_well_formed(&cell[1..end], ticks, carry) {
        return false;
    }
    all_unused(&cell[end..])
}
