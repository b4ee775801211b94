// The departures d(x) and the arrivals e(y) that a contact joins, taken from the table before the call.
ghost use Rattle.std.specs.Prelude.{◌≡◌, ◌+◌, ◌≤◌, ◌<◌, ℕ, length, get_or, drop};
ghost use Rattle.rules.specs.Limits.{max_animals};
ghost use Rattle.rules.specs.Layout.{animals, ticks};
ghost use Rattle.cells.specs.Stored.{or_zero};
ghost use Rattle.adding.specs.Steps.{departing, arriving, Departures, Arrivals};

use tables::{Opening, Table};

// Fills the slots, one for each animal, with the ticks of the animals.
fn fill<F: Fn(usize) -> u32>(slots: &mut [u32], tick: F)
    requires { (x : ℕ) → x < length slots.old → F.pre tick x }
    ensures { (x : ℕ) → x < length slots.old → F.post tick x (get_or slots.new x 0) }
{
    for (x, slot) in slots.iter_mut().enumerate() {
        *slot = tick(x);
    }
}

// The ticks of the first n animals, one after the other.
fn of_animals<F: Fn(usize) -> u32>(n: usize, tick: F) -> [u32; Opening::MAX_ANIMALS as usize]
    requires few { n ≤ max_animals }
    requires each { (x : ℕ) → x < n → F.pre tick x }
    ensures { (x : ℕ) → x < n → F.post tick x (get_or result x 0) }
{
    let mut ticks = [0u32; Opening::MAX_ANIMALS as usize];
    fill(&mut ticks[..n], tick);
    ticks
}

// The departure of x: t for u itself, for another the latest that cell (x, u) has with an arrival by t.
fn departure(table: &Table, x: u32, u: u32, t: u32) -> Option<u32>
    requires { (x < animals table.now) × (u < animals table.now) }
    ensures { result ≡ departing (animals table.now) (ticks table.now + 1) (drop 1 table.now) u t x }
{
    if x == u {
        return Some(t);
    }
    cells::latest_departure(table.cell(x, u), t)
}

// The departures of the animals, 0 for an animal without one.
pub(crate) fn departures(table: &Table, u: u32, t: u32) -> [u32; Opening::MAX_ANIMALS as usize]
    requires { u < animals table.now }
    ensures { Departures table.now u t result }
{
    of_animals(
        table.animals() as usize,
        |x|
            requires { (x < animals table.now) × (u < animals table.now) }
            ensures { result ≡ or_zero (departing (animals table.entry.now) (ticks table.entry.now + 1) (drop 1 table.entry.now) u t x) }
        { departure(table, x as u32, u, t).unwrap_or(0) },
    )
}

// The arrival at y: a for v itself, for another the earliest in cell (v, y) with departure at least a.
fn arrival(table: &Table, v: u32, y: u32, a: u32) -> Option<u32>
    requires { (v < animals table.now) × (y < animals table.now) }
    ensures { result ≡ arriving (animals table.now) (ticks table.now + 1) (drop 1 table.now) v a y }
{
    if y == v {
        return Some(a);
    }
    cells::earliest_arrival(table.cell(v, y), a)
}

// The arrivals at the animals, 0 at an animal without one.
pub(crate) fn arrivals(table: &Table, v: u32, a: u32) -> [u32; Opening::MAX_ANIMALS as usize]
    requires { v < animals table.now }
    ensures { Arrivals table.now v a result }
{
    of_animals(
        table.animals() as usize,
        |y|
            requires { (v < animals table.now) × (y < animals table.now) }
            ensures { result ≡ or_zero (arriving (animals table.entry.now) (ticks table.entry.now + 1) (drop 1 table.entry.now) v a y) }
        { arrival(table, v, y as u32, a).unwrap_or(0) },
    )
}
