// One cell while it is built: rows in use, and marks behind them.
ghost use Rattle.std.specs.Prelude.{◌≡◌};
ghost use Rattle.journeys.specs.Cell.{latest_departure};
ghost use Rattle.rules.specs.Layout.{cell_of};
ghost use Rattle.building.specs.RowsInUse.{put_words, InUse, CanPutLast};

use journeys::Interval;

// The latest departure of the rows in use that arrives by t. The last row is looked at first, since
// it is the one in most cells of a build.
pub(crate) fn departure_by(cell: &[u32], t: u32) -> Option<u32>
    requires { InUse cell.now }
    ensures { result ≡ latest_departure (cell_of cell.now) t }
{
    let end = words::rows_of(cell[0]) as usize;
    if end == 0 {
        return None;
    }
    let w = cell[end];
    if words::arrival_of(w) <= t {
        return Some(words::departure_of(w));
    }
    cells::latest_departure(cell, t)
}

// Puts the interval at the end of the rows in use.
pub(crate) fn append(cell: &mut [u32], interval: Interval)
    requires { CanPutLast interval.departure interval.arrival cell.old }
    ensures { cell.new ≡ put_words interval cell.old }
{
    let last = words::rows_of(cell[0]) as usize;
    let w = words::interval_word(interval);
    if last > 0 {
        if interval.departure <= words::departure_of(cell[last]) {
            return;
        }
        if interval.arrival <= words::arrival_of(cell[last]) {
            cell[last] = w;
            return;
        }
    }
    let end = last + 1;
    cell[end] = w;
    cell[0] = words::count_word(end as u32);
}
