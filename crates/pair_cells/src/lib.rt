// What is read off the cell of a pair, on a table that passed its checks.
#![tactic(auto)]

ghost use Rattle.std.specs.Prelude.{◌≡◌, ◌<◌, ◌≤◌};
ghost use Rattle.rules.specs.Limits.{max_ticks};
ghost use Rattle.rules.specs.Layout.{animals, cells_of};
ghost use Rattle.rules.specs.Adding.{stands, holds};
ghost use Rattle.rules.specs.Questions.{reaches};
ghost use Rattle.cells.specs.Rows.{first_departing, last_arriving};

use cells::Row;
use journeys::{Contact, Interval};
use tables::Table;

// The first row of cell (u, v) that departs at or after `first`: its number and its interval, or nothing.
pub fn first_departing(table: &Table, u: u32, v: u32, first: u32) -> Option<Row>
    requires { (u < animals table.now) × (v < animals table.now) }
    ensures { result ≡ first_departing (cells_of table.now u v) first }
{
    cells::first_departing(table.cell(u, v), first)
}

// The last row of cell (u, v) that arrives by `last`: its number and its interval, or nothing.
// Not one function with the first: every call would say which end it asks for and from which side.
pub fn last_arriving(table: &Table, u: u32, v: u32, last: u32) -> Option<Row>
    requires { (u < animals table.now) × (v < animals table.now) }
    ensures { result ≡ last_arriving (cells_of table.now u v) last }
{
    cells::last_arriving(table.cell(u, v), last)
}

// Whether the interval stands in cell (u, v).
pub fn stands(table: &Table, u: u32, v: u32, interval: Interval) -> bool
    requires { (u < animals table.now) × (v < animals table.now) }
    ensures { result ≡ stands interval (cells_of table.now u v) }
{
    cells::stands(table.cell(u, v), interval)
}

// Whether the table holds the contact.
pub fn holds(table: &Table, contact: Contact) -> bool
    requires { (contact.from < animals table.now) × (contact.to < animals table.now) × (contact.tick ≤ max_ticks) }
    ensures { result ≡ holds table.now contact }
{
    let departure = contact.tick;
    let arrival = departure + table.carry();
    let interval = Interval { departure, arrival };
    stands(table, contact.from, contact.to, interval)
}

// Whether a stored interval of the pair fits the window from `first` to `last`.
pub fn reaches(table: &Table, u: u32, v: u32, first: u32, last: u32) -> bool
    requires { (u < animals table.now) × (v < animals table.now) }
    ensures { result ≡ reaches table.now u v first last }
{
    let carry = table.carry();
    cells::has_fitting(table.cell(u, v), carry, first, last)
}
