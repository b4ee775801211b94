// Adding a contact to a table that passed its checks: the departures d(x) and the arrivals e(y) are taken from the table
// before the call, then every pair's interval enters its cell.
#![tactic(auto)]

mod ends;
mod steps;

ghost use Rattle.std.specs.Prelude.{◌≡◌};
ghost use Rattle.rules.specs.Adding.{add_refusal, added, add_leaves};

use journeys::{Contact, Interval};
use rules::Added;
use tables::Table;

// Adds the contact, which no check refuses: whether it was new or known, and how many cells changed.
pub fn add_contact(table: &mut [u32], contact: Contact) -> Added
    requires { add_refusal table.old contact ≡ None }
    ensures value { result ≡ added table.old contact }
    ensures table_after { table.new ≡ add_leaves table.old contact }
{
    let before = Table::of_valid(table);
    let o = before.opening();
    let n = o.animals as usize;
    let size = o.ticks as usize + 1;
    let departure = contact.tick;
    let arrival = departure + o.carry;
    let d = ends::departures(&before, contact.from, departure);
    let e = ends::arrivals(&before, contact.to, arrival);
    let cell = before.cell(contact.from, contact.to);
    let known = cells::stands(cell, Interval { departure, arrival });
    let changed = steps::enter_all_cells(&mut table[1..], n, size, &d, &e);
    if known {
        Added::Known(changed)
    } else {
        Added::New(changed)
    }
}
