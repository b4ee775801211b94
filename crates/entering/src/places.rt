// Where an interval goes among the rows in use of a cell.
ghost use Rattle.std.specs.Prelude.{◌≡◌, ◌≤◌, length};
ghost use Rattle.rules.specs.Layout.{cell_of};
ghost use Rattle.cells.specs.Stored.{RowsInUse, arrival_end, front_below};
ghost use Rattle.entering.specs.Slots.{slot_of};

use journeys::Interval;

// The number of the first row that arrives at or after a; those from row i on do.
// It goes down from row i and no search by halves, since few rows are passed.
fn first_arriving(cell: &[u32], i: usize, a: u32) -> usize
    requires rows_in_use { RowsInUse cell.now }
    requires cell_bound { (front_below arrival_end a (cell_of cell.now) ≤ i) × (i ≤ length (cell_of cell.now)) }
    ensures { result ≡ front_below arrival_end a (cell_of cell.now) }
{
    let mut lo = i;
    while lo > 0 && words::arrival_of(cell[lo]) >= a {
        lo -= 1;
    }
    lo
}

// Where an interval goes: in the place of the rows from lo to hi - 1.
#[derive(Clone, Copy)]
pub(crate) struct Slot {
    pub lo: usize,
    pub hi: usize,
}

// Where the interval goes among the rows of the cell, or nothing, since a row lies inside it.
pub(crate) fn find(cell: &[u32], interval: Interval) -> Option<Slot>
    requires { RowsInUse cell.now }
    ensures { result ≡ slot_of interval (cell_of cell.now) }
{
    let Some(row) = cells::first_departing(cell, interval.departure) else {
        let hi = words::rows_of(cell[0]) as usize;
        let lo = first_arriving(cell, hi, interval.arrival);
        return Some(Slot { lo, hi });
    };
    if row.interval.arrival <= interval.arrival {
        return None;
    }
    let index = row.index;
    let lo = first_arriving(cell, index, interval.arrival);
    let same = row.interval.departure == interval.departure;
    let hi = if same { index + 1 } else { index };
    Some(Slot { lo, hi })
}
