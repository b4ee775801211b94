// The text of one cell, and of all cells of a table.
ghost use Rattle.std.specs.Prelude.{◌≡◌, ◌≤◌, length};
ghost use Rattle.words.specs.Words.{interval_of};
ghost use Rattle.rules.specs.Layout.{cell_of};
ghost use Rattle.rules.specs.Sheet.{interval_text, intervals_text, cell_text};
ghost use Rattle.cells.specs.Stored.{Stored};
ghost use Rattle.table_text.specs.Lines.{overwrite_front, cell_lines};

use tables::Table;

// Writes the interval of a row, behind a space.
fn put_interval(w: u32, out: &mut [u8]) -> usize
    requires { length (interval_text (interval_of w)) ≤ length out.old }
    ensures value { result ≡ length (interval_text (interval_of w)) }
    ensures out_after { out.new ≡ overwrite_front (interval_text (interval_of w)) out.old }
{
    out[0] = b' ';
    let at = 1 + crate::put_then(words::departure_of(w), b'-', &mut out[1..]);
    at + crate::put_number(words::arrival_of(w), &mut out[at..])
}

// Writes the intervals of a cell's rows in use.
fn put_intervals(cell: &[u32], out: &mut [u8]) -> usize
    requires stored { Stored cell.now }
    requires cell_in_bounds { length (intervals_text (cell_of cell.now)) ≤ length out.old }
    ensures value { result ≡ length (intervals_text (cell_of cell.now)) }
    ensures out_after { out.new ≡ overwrite_front (intervals_text (cell_of cell.now)) out.old }
{
    let end = words::rows_of(cell[0]) as usize + 1;
    let mut at = 0;
    for w in &cell[1..end] {
        at = at + put_interval(*w, &mut out[at..]);
    }
    at
}

// Writes the line of cell (u, v); an empty cell has none.
fn put_cell(cell: &[u32], u: u32, v: u32, out: &mut [u8]) -> usize
    requires stored { Stored cell.now }
    requires cell_in_bounds { length (cell_text u v (cell_of cell.now)) ≤ length out.old }
    ensures value { result ≡ length (cell_text u v (cell_of cell.now)) }
    ensures out_after { out.new ≡ overwrite_front (cell_text u v (cell_of cell.now)) out.old }
{
    if words::rows_of(cell[0]) == 0 {
        return 0;
    }
    let a = crate::put_then(u, b' ', out);
    let b = a + crate::put_number(v, &mut out[a..]);
    let end = b + put_intervals(cell, &mut out[b..]);
    out[end] = b'\n';
    end + 1
}

// Writes the lines of the table's cells.
pub(crate) fn put_cells(table: &Table, out: &mut [u8]) -> usize
    requires { length (cell_lines table.now) ≤ length out.old }
    ensures value { result ≡ length (cell_lines table.now) }
    ensures out_after { out.new ≡ overwrite_front (cell_lines table.now) out.old }
{
    let opening = table.opening();
    let n = opening.animals as usize;
    let size = opening.ticks as usize + 1;
    let mut end = 0;
    for (k, cell) in table.cells().chunks_exact(size).enumerate() {
        let u = (k / n) as u32;
        let v = (k % n) as u32;
        end = end + put_cell(cell, u, v, &mut out[end..]);
    }
    end
}
