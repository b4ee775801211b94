// Questions about windows and ticks. Each checks in document 01's order, and its answer is that of its rule, for every
// input.
#![tactic(auto)]

ghost use Rattle.std.specs.Prelude.{◌≡◌};
ghost use Rattle.rules.specs.Questions.{reach_answer, earliest_answer, latest_answer, connected_answer, reached_answer, reached_words, reached_count, reached_set, is_found, words_found, count_found};

use animal_loops::{sets, walks};
use journeys::Interval;
use rules::{AnimalSet, Refusal};
use tables::Table;

// Whether v can have been reached from u in the window, on a table that passed 5 and 6. Refuses with 7, 8, 9, 19.
pub fn reach_checked(table: &Table, u: u32, v: u32, first: u32, last: u32) -> Result<bool, Refusal>
    ensures { result ≡ reach_answer table.now u v first last }
{
    let _ = table.cells();
    call_checks::judge_question(table.words(), u, v, first, last)?;
    Ok(pair_cells::reaches(table, u, v, first, last))
}

// Whether v can have been reached from u in the window. Refuses with 5, 6, 7, 8, 9, 19.
pub fn reach(table: &[u32], u: u32, v: u32, first: u32, last: u32) -> Result<bool, Refusal>
    ensures { result ≡ reach_answer table.now u v first last }
{
    let table = checks::judge_table(table)?;
    reach_checked(&table, u, v, first, last)
}

// The interval from u to v with the earliest arrival, of those that depart at or after `first`. Refuses with 5, 6, 7, 8, 9.
pub fn earliest(table: &[u32], u: u32, v: u32, first: u32) -> Result<Option<Interval>, Refusal>
    ensures { result ≡ earliest_answer table.now u v first }
{
    let table = call_checks::judge_moment(table, u, v, first)?;
    Ok(pair_cells::first_departing(&table, u, v, first).map(|row| row.interval))
}

// The interval from u to v with the latest departure, of those that arrive by `last`. Refuses with 5, 6, 7, 8, 9.
pub fn latest(table: &[u32], u: u32, v: u32, last: u32) -> Result<Option<Interval>, Refusal>
    ensures { result ≡ latest_answer table.now u v last }
{
    let table = call_checks::judge_moment(table, u, v, last)?;
    Ok(pair_cells::last_arriving(&table, u, v, last).map(|row| row.interval))
}

// Whether each animal reaches each other one in the window. Refuses with 5, 6, 9, 19.
pub fn connected(table: &[u32], first: u32, last: u32) -> Result<bool, Refusal>
    ensures { result ≡ connected_answer table.now first last }
{
    let table = call_checks::judge_connected(table, first, last)?;
    Ok(walks::connects(&table, first, last))
}

// The animals reached from u in the window. Refuses with 5, 6, 7, 9, 19.
#[tactic(auto, using(checks::proofs::Judged::refused_with), unfolding(rules::specs::Questions::reached_set, rules::specs::Questions::reached_answer, rules::specs::Questions::reached_words, rules::specs::Questions::reached_count))]
pub fn reached(table: &[u32], u: u32, first: u32, last: u32) -> Result<AnimalSet, Refusal>
    ensures set { result ≡ reached_set table.now u first last }
    ensures found { is_found result ≡ reached_answer table.now u first last }
    ensures words { words_found result ≡ reached_words table.now u first last }
    ensures count { count_found result ≡ reached_count table.now u first last }
{
    let table = call_checks::judge_reached(table, u, first, last)?;
    Ok(sets::collect(&table, u, first, last))
}
