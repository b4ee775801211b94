// Removing one contact from a table that passed its checks: the contacts that the table holds, less this one, are marked in a
// second table, which is built over them and copied to the first.
#![tactic(auto)]

ghost use Rattle.std.specs.Prelude.{◌≡◌, [], ◌∷◌, length};
ghost use Rattle.journeys.specs.Journey.{contact, In, Without};
ghost use Rattle.words.specs.Words.{interval_of};
ghost use Rattle.rules.specs.Layout.{table_length, animals, ticks, cell_of};
ghost use Rattle.rules.specs.Checks.{ValidTable};
ghost use Rattle.rules.specs.Removing.{remaining, table_without};
ghost use Rattle.cells.specs.Stored.{Stored};
ghost use Rattle.logs.specs.Ordered.{cell_contacts};
ghost use Rattle.removing.specs.Remaining.{table_opening, MarkedFor, MarkedBesides, CanMarkAll, MarksAll, tick_left_out};

use journeys::Contact;
use tables::{Opening, Table};

// Marks the contact of a row of cell (u, v), where the row is one and does not depart at tick `except`.
fn mark_row(
    opening: Opening,
    w: u32,
    u: u32,
    v: u32,
    except: u32,
    body: &mut [u32],
    heads: &mut [u32; Opening::MAX_TICKS as usize],
)
    requires { CanMarkAll opening (In (cell_contacts opening.carry u v (interval_of w ∷ []))) heads.old body.old }
    ensures { MarksAll opening (Without (In (cell_contacts opening.carry u v (interval_of w ∷ []))) (contact u v except)) heads.old body.old heads.new body.new }
{
    let t = words::departure_of(w);
    if t == except {
        return;
    }
    if words::arrival_of(w) != t + opening.carry {
        return;
    }
    let n = opening.animals as usize;
    let size = opening.ticks as usize + 1;
    let contact = Contact {
        from: u,
        to: v,
        tick: t,
    };
    building::mark_contact(body, n, size, contact, heads);
}

// Marks the contacts of cell (u, v), but for the one at tick `except`.
fn mark_cell(
    opening: Opening,
    cell: &[u32],
    u: u32,
    v: u32,
    except: u32,
    body: &mut [u32],
    heads: &mut [u32; Opening::MAX_TICKS as usize],
)
    requires stored { Stored cell.now }
    requires can_mark_all { CanMarkAll opening (In (cell_contacts opening.carry u v (cell_of cell.now))) heads.old body.old }
    ensures { MarksAll opening (Without (In (cell_contacts opening.carry u v (cell_of cell.now))) (contact u v except)) heads.old body.old heads.new body.new }
{
    let end = words::rows_of(cell[0]) as usize + 1;
    for w in &cell[1..end] {
        mark_row(opening, *w, u, v, except, body, heads);
    }
}

// The tick at which cell (u, v) has the contact: its own where it is the cell of that pair, else 0, at which no contact is.
// No `Option`: a row that departs at 0 does not occur, so no row is left out.
fn tick_left_out(u: u32, v: u32, contact: Contact) -> u32
    ensures { result ≡ tick_left_out contact u v }
{
    if u != contact.from {
        return 0;
    }
    if v != contact.to {
        return 0;
    }
    contact.tick
}

// Marks the contacts of all cells of the table, but for the one, where none is marked yet.
fn mark_cells(
    table: &Table,
    contact: Contact,
    body: &mut [u32],
    heads: &mut [u32; Opening::MAX_TICKS as usize],
)
    requires { MarkedFor (table_opening table.now) [] heads.old body.old }
    ensures marked { MarkedBesides (table_opening table.now) [] (In (remaining table.now contact)) heads.new body.new }
    ensures valid { ValidTable table.now }
{
    let opening = table.opening();
    let n = opening.animals as usize;
    let size = opening.ticks as usize + 1;
    for (k, cell) in table.cells().chunks_exact(size).enumerate() {
        let u = (k / n) as u32;
        let v = (k % n) as u32;
        let except = tick_left_out(u, v, contact);
        mark_cell(opening, cell, u, v, except, body, heads);
    }
}

// Leaves the second table as the one over the contacts that the first holds, less (u, v, t).
fn build_without(table: &Table, work: &mut [u32], contact: Contact)
    requires { length work.old ≡ table_length (animals table.now) (ticks table.now) }
    ensures { work.new ≡ table_without table.now contact }
{
    tables::write_opened(work, table.opening());
    let mut heads = building::no_heads();
    mark_cells(table, contact, &mut work[1..], &mut heads);
    building::build(work, &heads);
}

// Copies the words of one table to another of its length.
// Word by word and not by `copy_from_slice`, for which the archive for C would ask for `memmove`.
fn copy(from: &[u32], to: &mut [u32])
    requires { length to.old ≡ length from.now }
    ensures { to.new ≡ from.now }
{
    for i in 0..to.len() {
        to[i] = from[i];
    }
}

// Leaves both tables as the one over the contacts that the first holds, less (u, v, t).
pub fn remove_held(table: &mut [u32], work: &mut [u32], contact: Contact)
    requires valid_table { ValidTable table.old }
    requires table_len { length table.old ≡ length work.old }
    ensures table_after { table.new ≡ table_without table.old contact }
    ensures work_after { work.new ≡ table_without table.old contact }
{
    build_without(&Table::of_valid(table), work, contact);
    copy(work, table);
}
