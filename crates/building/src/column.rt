// One contact more, put at the ends of the cells of its column.
ghost use Rattle.std.specs.Prelude.{◌≡◌, ◌+◌, ◌<◌};
ghost use Rattle.adding.specs.Steps.{departing};
ghost use Rattle.building.specs.Stage.{InUseCell, PartlyAdded, AddsForAnimals};

use crate::cell;
use journeys::{Contact, Interval};

// The departure of x: t for u itself, for another the latest that cell (x, u) has with an arrival by t.
fn departure(body: &[u32], n: usize, size: usize, x: usize, u: usize, t: u32) -> Option<u32>
    requires { InUseCell n size body.now x u }
    ensures { result ≡ departing n size body.now u t x }
{
    if x == u {
        return Some(t);
    }
    cell::departure_by(grid::cell(body, n, size, x, u), t)
}

// Puts the interval of x at the end of its cell to the contact's goal, where x is not the goal and has a departure.
fn append_for(body: &mut [u32], n: usize, size: usize, x: usize, contact: Contact, carry: u32)
    requires partly_added { PartlyAdded n size carry contact x body.old }
    requires x_lt_n { x < n }
    ensures { AddsForAnimals n size carry contact x (x + 1) body.old body.new }
{
    let v = contact.to as usize;
    if x == v {
        return;
    }
    let Some(departure) = departure(body, n, size, x, contact.from as usize, contact.tick) else {
        return;
    };
    let arrival = contact.tick + carry;
    let at = grid::start(n, size, x, v);
    let end = at + size;
    cell::append(&mut body[at..end], Interval { departure, arrival });
}

// Adds the contact: the intervals of all animals are put at the ends of their cells.
pub(crate) fn append_contact(body: &mut [u32], n: usize, size: usize, contact: Contact, carry: u32)
    requires { PartlyAdded n size carry contact 0 body.old }
    ensures { AddsForAnimals n size carry contact 0 n body.old body.new }
{
    for x in 0..n {
        append_for(body, n, size, x, contact, carry);
    }
}
