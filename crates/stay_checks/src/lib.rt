// The checks of a list of stays. Nothing is written.
#![tactic(auto, using(checks::proofs::Judged::refused_with, crate::proofs::Judged::each_passes), unfolding(checks::specs::Verdicts::verdict_of, rules::specs::Stays::stays_refusal))]

ghost use Rattle.std.specs.Prelude.{◌≡◌, ◌/◌, ◌<◌, length};
ghost use Rattle.rules.specs.Stays.{stay_at, stays_of, is_stay, ensure_each, ensure_stays, stays_refusal};
ghost use Rattle.checks.specs.Verdicts.{verdict_of};

use checks::{Verdict, groups};
use rules::{Refusal, Stay};

// Record i of the words.
pub fn stay_at(stays: &[u32], i: usize) -> Stay
    requires { i < length stays.now / 4 }
    ensures { result ≡ stay_at stays.now i }
{
    let at = 4 * i;
    Stay {
        animal: stays[at],
        pen: stays[at + 1],
        first: stays[at + 2],
        last: stays[at + 3],
    }
}

// Whether the record is a stay of one of the animals in one of the pens, at ticks of the table, with first not after last.
fn is_stay(stay: Stay, animals: u32, ticks: u32) -> bool
    ensures { result ≡ is_stay animals ticks stay }
{
    stay.animal < animals
        && stay.pen <= Stay::MAX_PEN
        && tables::is_within(stay.first, ticks)
        && tables::is_within(stay.last, ticks)
        && stay.first <= stay.last
}

// Check 18 of each whole record in turn.
fn judge_each(stays: &[u32], animals: u32, ticks: u32) -> Verdict
    ensures { result ≡ verdict_of (ensure_each animals ticks (stays_of stays.now) None) }
{
    let count = stays.len() / 4;
    for i in 0..count {
        let stay = stay_at(stays, i);
        groups::ensure(is_stay(stay, animals, ticks), Refusal::IllegalStay)?;
    }
    Ok(())
}

// Check 18: of each record in turn, and that the last is whole.
fn judge_records(table: &[u32], stays: &[u32]) -> Verdict
    ensures { result ≡ verdict_of (ensure_stays table.now stays.now None) }
{
    let w = groups::first_word(table);
    judge_each(stays, words::animals_of(w), words::ticks_of(w))?;
    groups::ensure(stays.len() % 4 == 0, Refusal::IllegalStay)
}

// All checks of a list of stays: 5, 6, then 18.
pub fn judge_stays(table: &[u32], stays: &[u32]) -> Verdict
    ensures { result ≡ verdict_of (stays_refusal table.now stays.now) }
{
    checks::judge_table(table)?;
    judge_records(table, stays)
}
