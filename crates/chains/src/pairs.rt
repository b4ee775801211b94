// The departure of the interval of a cell with a given arrival, on a table that passed its checks.
ghost use Rattle.std.specs.Prelude.{◌≡◌, ◌<◌, IfSome};
ghost use Rattle.rules.specs.Layout.{animals, cells_of};
ghost use Rattle.rules.specs.Chains.{departure_with};
ghost use Rattle.chains.specs.Found.{IsDeparture};

use journeys::Interval;
use tables::Table;

// The departure of an interval of cell (u, v) with arrival b that departs at or after a: it can only be that of the last row
// that arrives by b.
pub(crate) fn departure_with(table: &Table, u: u32, v: u32, a: u32, b: u32) -> Option<u32>
    requires { (u < animals table.now) × (v < animals table.now) }
    ensures departure_value { result ≡ departure_with a b (cells_of table.now u v) }
    ensures departure_bound { IfSome result IsDeparture }
{
    let Interval { departure, arrival } = cells::last_arriving(table.cell(u, v), b)?.interval;
    if arrival == b && a <= departure {
        Some(departure)
    } else {
        None
    }
}
