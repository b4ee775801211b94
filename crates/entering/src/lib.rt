// An interval enters a cell in lent memory.
#![tactic(auto)]

mod moves;
mod places;

ghost use Rattle.std.specs.Prelude.{◌≡◌, not, ◌-◌, ◌<◌, ◌≤◌, length};
ghost use Rattle.journeys.specs.Cell.{has_inside, enter};
ghost use Rattle.rules.specs.Limits.{max_arrival};
ghost use Rattle.rules.specs.Layout.{cell_words, cell_of};
ghost use Rattle.cells.specs.Stored.{Stored};

use journeys::Interval;
use places::Slot;

// The interval enters the cell; the answer says whether the cell changed.
pub fn enters(cell: &mut [u32], interval: Interval) -> bool
    requires stored { Stored cell.old }
    requires le_d { (1 ≤ interval.departure) × (interval.departure < length cell.old) × (interval.arrival ≤ max_arrival) }
    ensures value { result ≡ not (has_inside interval (cell_of cell.old)) }
    ensures cell_after { cell.new ≡ cell_words (length cell.old - 1) (enter interval (cell_of cell.old)) }
{
    let n = words::rows_of(cell[0]) as usize;
    let Some(Slot { lo, hi }) = places::find(cell, interval) else {
        return false;
    };
    let rows = moves::replace(&mut cell[1..], lo, hi, n, words::interval_word(interval));
    cell[0] = words::count_word(rows as u32);
    true
}
