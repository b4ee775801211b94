// One cell in lent memory: the search for a row, and whether an interval of the cell fits a window.
#![tactic(auto)]

ghost use Rattle.std.specs.Prelude.{◌≡◌, ◌+◌, ◌≤◌, map, length, get_or};
ghost use Rattle.journeys.specs.Cell.{Rising, latest_departure, earliest_arrival, has_inside};
ghost use Rattle.words.specs.Layout.{get};
ghost use Rattle.words.specs.Words.{rows_field, interval_of};
ghost use Rattle.rules.specs.Layout.{cell_of};
ghost use Rattle.rules.specs.Adding.{stands};
ghost use Rattle.rules.specs.Windows.{widest, fits_window};
ghost use Rattle.cells.specs.Stored.{RowsInUse, departure_end, arrival_end, front_below};
ghost use Rattle.cells.specs.Rows.{row_at, first_departing, last_arriving};

use journeys::Interval;

// The first of the rows that departs at or after t: the number of rows before it.
fn lower_bound_departure(rows: &[u32], t: u32) -> usize
    requires { Rising (map interval_of rows.now) }
    ensures { result ≡ front_below departure_end t (map interval_of rows.now) }
{
    rows.partition_point(|w| words::departure_of(*w) < t)
}

// The number of rows that arrive by t; they stand at the front.
fn upper_bound_arrival(rows: &[u32], t: u32) -> usize
    requires { Rising (map interval_of rows.now) }
    ensures { result ≡ front_below arrival_end (t + 1) (map interval_of rows.now) }
{
    rows.partition_point(|w| words::arrival_of(*w) <= t)
}

// A row of a cell: its number, counted from 0, and its interval.
#[derive(Clone, Copy)]
pub struct Row {
    pub index: usize,
    pub interval: Interval,
}

// The index in the cell after its rows in use.
fn rows_end(cell: &[u32]) -> usize
    requires { RowsInUse cell.now }
    ensures { (result ≡ get rows_field (get_or cell.now 0 0) + 1) × (result ≤ length cell.now) }
{
    words::rows_of(cell[0]) as usize + 1
}

// Row `index` of the cell, or nothing where it has no such row.
fn row_at(cell: &[u32], index: usize) -> Option<Row>
    requires { RowsInUse cell.now }
    ensures { result ≡ row_at (cell_of cell.now) index }
{
    let rows = words::rows_of(cell[0]) as usize;
    if rows <= index {
        return None;
    }
    let interval = words::interval_of(cell[index + 1]);
    Some(Row { index, interval })
}

// The first row of the cell that departs at or after t: its number and its interval, or nothing.
pub fn first_departing(cell: &[u32], t: u32) -> Option<Row>
    requires { RowsInUse cell.now }
    ensures { result ≡ first_departing (cell_of cell.now) t }
{
    let end = rows_end(cell);
    row_at(cell, lower_bound_departure(&cell[1..end], t))
}

// The last row of the cell that arrives by t: its number and its interval, or nothing.
pub fn last_arriving(cell: &[u32], t: u32) -> Option<Row>
    requires { RowsInUse cell.now }
    ensures { result ≡ last_arriving (cell_of cell.now) t }
{
    let end = rows_end(cell);
    let front = upper_bound_arrival(&cell[1..end], t);
    row_at(cell, front.checked_sub(1)?)
}

// The latest departure in the cell with arrival at most t.
pub fn latest_departure(cell: &[u32], t: u32) -> Option<u32>
    requires { RowsInUse cell.now }
    ensures { result ≡ latest_departure (cell_of cell.now) t }
{
    let row = last_arriving(cell, t)?;
    Some(row.interval.departure)
}

// The earliest arrival in the cell with departure at least t.
pub fn earliest_arrival(cell: &[u32], t: u32) -> Option<u32>
    requires { RowsInUse cell.now }
    ensures { result ≡ earliest_arrival (cell_of cell.now) t }
{
    let row = first_departing(cell, t)?;
    Some(row.interval.arrival)
}

// Whether the interval stands in the cell: only the first row that departs at or after it can be it.
pub fn stands(cell: &[u32], interval: Interval) -> bool
    requires { RowsInUse cell.now }
    ensures { result ≡ stands interval (cell_of cell.now) }
{
    match first_departing(cell, interval.departure) {
        Some(row) => interval == row.interval,
        None => false,
    }
}

// Whether the interval fits the window from `first` to `last`: it may arrive up to the carry time after `last`.
pub fn fits(carry: u32, interval: Interval, first: u32, last: u32) -> bool
    ensures { result ≡ fits_window carry interval first last }
{
    first <= interval.departure && interval.arrival as u64 <= last as u64 + carry as u64
}

// Whether an interval of the cell fits the window from `first` to `last`: if any does, the first that departs at or after
// `first` does.
pub fn has_fitting(cell: &[u32], carry: u32, first: u32, last: u32) -> bool
    requires { RowsInUse cell.now }
    ensures { result ≡ has_inside (widest carry first last) (cell_of cell.now) }
{
    match first_departing(cell, first) {
        Some(row) => fits(carry, row.interval, first, last),
        None => false,
    }
}
