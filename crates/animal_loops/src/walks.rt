// Loops over the animals of a table that passed its checks.
ghost use Rattle.std.specs.Prelude.{◌≡◌, ◌<◌};
ghost use Rattle.rules.specs.Layout.{animals};
ghost use Rattle.rules.specs.Questions.{connects};
ghost use Rattle.animal_loops.specs.Walks.{joins, joins_all};

use tables::Table;

// Whether v is u or reached from it in the window.
#[tactic(auto, unfolding(crate::specs::Walks::joins))]
fn joins(table: &Table, u: u32, v: u32, first: u32, last: u32) -> bool
    requires { (u < animals table.now) × (v < animals table.now) }
    ensures { result ≡ joins table.now first last u v }
{
    u == v || pair_cells::reaches(table, u, v, first, last)
}

// Whether every animal but u is reached from it in the window.
fn joins_all(table: &Table, n: u32, u: u32, first: u32, last: u32) -> bool
    requires { (u < n) × (n ≡ animals table.now) }
    ensures { result ≡ joins_all table.now first last u }
{
    (0..n).all(|v| joins(table, u, v, first, last))
}

// Whether each animal reaches each other one in the window.
pub fn connects(table: &Table, first: u32, last: u32) -> bool
    ensures { result ≡ connects table.now first last }
{
    let n = table.animals();
    (0..n).all(|u| joins_all(table, n, u, first, last))
}
