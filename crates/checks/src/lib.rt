// The groups of checks: one function judges one group, and a call's checks are its groups one after the other. Nothing is
// written.
#![tactic(auto, using(crate::proofs::Judged::refused_with), unfolding(crate::specs::Verdicts::verdict_of))]

pub mod groups;

ghost use Rattle.std.specs.Prelude.{◌≡◌};
ghost use Rattle.rules.specs.Answers.{answer_of};
ghost use Rattle.rules.specs.Checks.{ensure_table};
ghost use Rattle.rules.specs.Opening.{open_refusal};
ghost use Rattle.tables.specs.Openings.{opening};
ghost use Rattle.checks.specs.Verdicts.{verdict_of};

use rules::Refusal;
use tables::{Opening, Table};

// The verdict of a group of checks: passed, or refused.
pub type Verdict = Result<(), Refusal>;

// Checks 1, 2, 3 and 4, of an opening: the opening that is made, or the refusal.
pub fn judge_open(table: &[u32], animals: u32, ticks: u32, carry: u32) -> Result<Opening, Refusal>
    ensures { result ≡ answer_of (open_refusal animals ticks carry table.now) (Ok (opening animals ticks carry)) }
{
    let opening = Opening::new(animals, ticks, carry)?;
    groups::ensure(table.len() == opening.table_length(), Refusal::WrongLength)?;
    Ok(opening)
}

// Checks 5 and 6, which any call on an open table makes first: the table that passed, or the refusal.
pub fn judge_table(table: &[u32]) -> Result<Table<'_>, Refusal>
    ensures { result ≡ answer_of (ensure_table table.now None) (Ok table.now) }
{
    groups::ensure(tables::is_open(table), Refusal::NotOpen)?;
    groups::ensure(tables::well_formed(table), Refusal::NotWellFormed)?;
    Ok(Table::of_valid(table))
}
