// The checks of reading a log. Nothing is written.
#![tactic(auto, using(checks::proofs::Judged::refused_with, crate::proofs::Logged::words_pass), unfolding(checks::specs::Verdicts::verdict_of, rules::specs::Reading::ensure_word, rules::specs::Reading::read_refusal, rules::specs::Reading::is_legal, rules::specs::Reading::is_true_end))]

ghost use Rattle.std.specs.Prelude.{◌≡◌, ◌-◌, eqb, length, get_or};
ghost use Rattle.rules.specs.declared.Refusal.TheVariants.{WrongLength, WrongEnd};
ghost use Rattle.rules.specs.Answers.{ensure};
ghost use Rattle.rules.specs.Layout.{table_length, animals, ticks};
ghost use Rattle.rules.specs.Reading.{is_log, between, is_true_end, is_legal, ensure_word, ensure_words, read_refusal};
ghost use Rattle.checks.specs.Verdicts.{verdict_of};

use checks::{Verdict, groups};
use journeys::Contact;
use rules::Refusal;
use tables::Opening;

// Whether there are two words or more and the first is an opening word.
fn is_log(log: &[u32]) -> bool
    ensures { result ≡ is_log log.now }
{
    2 <= log.len() && words::is_opening(groups::first_word(log))
}

// Check 4: the table has the length for the log's opening word.
fn judge_length(log: &[u32], table: &[u32]) -> Verdict
    ensures { result ≡ verdict_of (ensure (eqb (length table.now) (table_length (animals log.now) (ticks log.now))) WrongLength None) }
{
    let opening = Opening::of_word(groups::first_word(log));
    groups::ensure(table.len() == opening.table_length(), Refusal::WrongLength)
}

// The words between the first and the last.
fn between(log: &[u32]) -> &[u32]
    ensures { result.now ≡ between log.now }
{
    if log.len() < 2 {
        return &log[..0];
    }
    let end = log.len() - 1;
    &log[1..end]
}

// Whether both animals are below n and differ, and the tick is at most τ.
fn is_legal(contact: Contact, animals: u32, ticks: u32) -> bool
    ensures { result ≡ is_legal animals ticks contact }
{
    contact.from < animals
        && contact.to < animals
        && contact.from != contact.to
        && contact.tick <= ticks
}

// Checks 12 and 13 of one word between the first and the last of a log, for a table of n animals and τ ticks.
fn judge_word(w: u32, animals: u32, ticks: u32) -> Verdict
    ensures { result ≡ verdict_of (ensure_word animals ticks w None) }
{
    groups::ensure(words::is_contact(w), Refusal::NotAContact)?;
    let legal = is_legal(words::contact_of(w), animals, ticks);
    groups::ensure(legal, Refusal::IllegalContact)
}

// Checks 12 and 13 of each of the words in turn.
fn judge_each(words: &[u32], animals: u32, ticks: u32) -> Verdict
    ensures { result ≡ verdict_of (ensure_words animals ticks words.now None) }
{
    for w in words {
        judge_word(*w, animals, ticks)?;
    }
    Ok(())
}

// Checks 12 and 13 of the words between the first and the last.
fn judge_words(log: &[u32]) -> Verdict
    ensures { result ≡ verdict_of (ensure_words (animals log.now) (ticks log.now) (between log.now) None) }
{
    let w = groups::first_word(log);
    judge_each(between(log), words::animals_of(w), words::ticks_of(w))
}

// The last of the words, 0 where there is none.
// No `Option`: the rules read the end of a log off this word, whatever it is.
fn last_word(words: &[u32]) -> u32
    ensures { result ≡ get_or words.now (length words.now - 1) 0 }
{
    words.last().copied().unwrap_or(0)
}

// Whether the last word is an end word with the number of words between it and the first.
fn is_true_end(log: &[u32]) -> bool
    ensures { result ≡ is_true_end (length (between log.now)) (get_or log.now (length log.now - 1) 0) }
{
    let w = last_word(log);
    words::is_end(w) && words::logged_of(w) as usize == between(log).len()
}

// Check 14: the last word is an end word with the number of words between it and the first.
fn judge_end(log: &[u32]) -> Verdict
    ensures { result ≡ verdict_of (ensure (is_true_end (length (between log.now)) (get_or log.now (length log.now - 1) 0)) WrongEnd None) }
{
    groups::ensure(is_true_end(log), Refusal::WrongEnd)
}

// All checks of reading the log into the table: 11, then 4, then 12 and 13 of each word, then 14.
pub fn judge_read(log: &[u32], table: &[u32]) -> Verdict
    ensures { result ≡ verdict_of (read_refusal log.now table.now) }
{
    groups::ensure(is_log(log), Refusal::NotALog)?;
    judge_length(log, table)?;
    judge_words(log)?;
    judge_end(log)
}
