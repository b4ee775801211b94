// All checks of each call on an open table but stays: its groups, one after the other. Nothing is written.
#![tactic(auto, using(checks::proofs::Judged::refused_with), unfolding(checks::specs::Verdicts::verdict_of, rules::specs::Adding::add_refusal, rules::specs::Removing::remove_refusal, rules::specs::Joining::join_refusal, rules::specs::Questions::reach_refusal, rules::specs::Questions::moment_refusal, rules::specs::Questions::connected_refusal, rules::specs::Questions::reached_refusal, rules::specs::Chains::chain_refusal))]

ghost use Rattle.std.specs.Prelude.{◌≡◌};
ghost use Rattle.rules.specs.Answers.{answer_of};
ghost use Rattle.rules.specs.Checks.{ensure_table};
ghost use Rattle.rules.specs.Adding.{ensure_pair, ensure_tick, add_refusal};
ghost use Rattle.rules.specs.Windows.{ensure_window};
ghost use Rattle.rules.specs.Questions.{reach_refusal, moment_refusal, connected_refusal, reached_refusal};
ghost use Rattle.rules.specs.Chains.{chain_refusal};
ghost use Rattle.rules.specs.Joining.{join_refusal};
ghost use Rattle.rules.specs.Removing.{ensure_same_length, remove_refusal};
ghost use Rattle.checks.specs.Verdicts.{verdict_of};

use checks::{Verdict, groups};
use journeys::Contact;
use rules::Refusal;
use tables::Table;

// The checks of a contact behind 5 and 6: 7, 8, then 9.
fn judge_contact(table: &[u32], contact: Contact) -> Verdict
    ensures { result ≡ verdict_of (ensure_pair table.now contact.from contact.to (ensure_tick table.now contact.tick None)) }
{
    groups::judge_pair(table, contact.from, contact.to)?;
    groups::judge_tick(table, contact.tick)
}

// All checks of an add: 5, 6, then 7, 8, then 9.
pub fn judge_add(table: &[u32], contact: Contact) -> Verdict
    ensures { result ≡ verdict_of (add_refusal table.now contact) }
{
    checks::judge_table(table)?;
    judge_contact(table, contact)
}

// The checks of a removal but 21: 5, 6 of the first table, then 20 of the second, then 7, 8, then 9.
fn judge_removable<'a>(
    table: &'a [u32],
    work: &[u32],
    contact: Contact,
) -> Result<Table<'a>, Refusal>
    ensures { result ≡ answer_of (ensure_table table.now (ensure_same_length table.now work.now (ensure_pair table.now contact.from contact.to (ensure_tick table.now contact.tick None)))) (Ok table.now) }
{
    let whole = checks::judge_table(table)?;
    groups::ensure(table.len() == work.len(), Refusal::DifferentLengths)?;
    judge_contact(table, contact)?;
    Ok(whole)
}

// All checks of a removal: 5, 6 of the first table, then 20 of the second, then 7, 8, then 9, then 21.
pub fn judge_remove(table: &[u32], work: &[u32], contact: Contact) -> Verdict
    ensures { result ≡ verdict_of (remove_refusal table.now work.now contact) }
{
    let whole = judge_removable(table, work, contact)?;
    groups::ensure(pair_cells::holds(&whole, contact), Refusal::NotHeld)
}

// All checks of a join: 5, 6 of the first table, then 5, 6 of the second, then 17; the second table, or the refusal.
pub fn judge_join<'a>(first: &[u32], second: &'a [u32]) -> Result<Table<'a>, Refusal>
    ensures { result ≡ answer_of (join_refusal first.now second.now) (Ok second.now) }
{
    checks::judge_table(first)?;
    let whole = checks::judge_table(second)?;
    let same = groups::first_word(first) == groups::first_word(second);
    groups::ensure(same, Refusal::DifferentOpenings)?;
    Ok(whole)
}

// The checks of a question about a pair and a window behind 5 and 6: 7, 8, then 9, 19.
pub fn judge_question(table: &[u32], u: u32, v: u32, first: u32, last: u32) -> Verdict
    ensures { result ≡ verdict_of (ensure_pair table.now u v (ensure_window table.now first last None)) }
{
    groups::judge_pair(table, u, v)?;
    groups::judge_window(table, first, last)
}

// All checks of reach and of a claimed chain: 5, 6, then 7, 8, then 9, 19; the table, or the refusal.
pub fn judge_reach(
    table: &[u32],
    u: u32,
    v: u32,
    first: u32,
    last: u32,
) -> Result<Table<'_>, Refusal>
    ensures { result ≡ answer_of (reach_refusal table.now u v first last) (Ok table.now) }
{
    let whole = checks::judge_table(table)?;
    judge_question(table, u, v, first, last)?;
    Ok(whole)
}

// All checks of the earliest arrival and the latest departure: 5, 6, then 7, 8, then 9; the table, or the refusal.
pub fn judge_moment(table: &[u32], u: u32, v: u32, t: u32) -> Result<Table<'_>, Refusal>
    ensures { result ≡ answer_of (moment_refusal table.now u v t) (Ok table.now) }
{
    let whole = checks::judge_table(table)?;
    groups::judge_pair(table, u, v)?;
    groups::judge_moment(table, t)?;
    Ok(whole)
}

// All checks of connected: 5, 6, then 9, 19; the table, or the refusal.
pub fn judge_connected(table: &[u32], first: u32, last: u32) -> Result<Table<'_>, Refusal>
    ensures { result ≡ answer_of (connected_refusal table.now first last) (Ok table.now) }
{
    let whole = checks::judge_table(table)?;
    groups::judge_window(table, first, last)?;
    Ok(whole)
}

// All checks of the animals reached: 5, 6, then 7, then 9, 19; the table, or the refusal.
pub fn judge_reached(table: &[u32], u: u32, first: u32, last: u32) -> Result<Table<'_>, Refusal>
    ensures { result ≡ answer_of (reached_refusal table.now u first last) (Ok table.now) }
{
    let whole = checks::judge_table(table)?;
    groups::judge_animal(table, u)?;
    groups::judge_window(table, first, last)?;
    Ok(whole)
}

// All checks of a chain: 5, 6, then 7, 8, then 9, 19, then 10; the table, or the refusal.
pub fn judge_chain<'a>(
    table: &'a [u32],
    u: u32,
    v: u32,
    first: u32,
    last: u32,
    buffer: &[u32],
) -> Result<Table<'a>, Refusal>
    ensures { result ≡ answer_of (chain_refusal table.now u v first last buffer.now) (Ok table.now) }
{
    let whole = judge_reach(table, u, v, first, last)?;
    groups::judge_room(table, buffer)?;
    Ok(whole)
}
