// The groups of checks that calls on an open table are made of, and how one follows another.
ghost use Rattle.std.specs.Prelude.{◌≡◌, ◌&&◌, ◌-◌, leb, ltb, length, get_or};
ghost use Rattle.rules.specs.declared.Refusal.TheVariants.{ChainBufferTooShort};
ghost use Rattle.rules.specs.Answers.{ensure};
ghost use Rattle.rules.specs.Layout.{animals};
ghost use Rattle.rules.specs.Adding.{ensure_pair, ensure_tick};
ghost use Rattle.rules.specs.Windows.{window_in_range, ensure_window, ensure_moment};
ghost use Rattle.rules.specs.Questions.{ensure_animal};
ghost use Rattle.checks.specs.Verdicts.{verdict_of};

use crate::Verdict;
use rules::Refusal;

// One check: passed where its test holds, else refused.
pub fn ensure(test: bool, refusal: Refusal) -> Verdict
    ensures { result ≡ verdict_of (ensure test refusal None) }
{
    if test { Ok(()) } else { Err(refusal) }
}

// The first of the words, 0 where there is none.
// No `Option`: the rules read the numbers of a table off this word, whatever it is.
pub fn first_word(words: &[u32]) -> u32
    ensures { result ≡ get_or words.now 0 0 }
{
    words.first().copied().unwrap_or(0)
}

// Whether both are animals of the table.
fn are_animals(table: &[u32], u: u32, v: u32) -> bool
    ensures { result ≡ (ltb u (animals table.now) && ltb v (animals table.now)) }
{
    let n = words::animals_of(first_word(table));
    u < n && v < n
}

// Checks 7 and 8, of two animals.
pub fn judge_pair(table: &[u32], u: u32, v: u32) -> Verdict
    ensures { result ≡ verdict_of (ensure_pair table.now u v None) }
{
    ensure(are_animals(table, u, v), Refusal::NoSuchAnimal)?;
    ensure(u != v, Refusal::SameAnimal)
}

// Check 7, of one animal.
pub fn judge_animal(table: &[u32], u: u32) -> Verdict
    ensures { result ≡ verdict_of (ensure_animal table.now u None) }
{
    let n = words::animals_of(first_word(table));
    ensure(u < n, Refusal::NoSuchAnimal)
}

// Check 9, of a contact's tick: 1 to τ.
pub fn judge_tick(table: &[u32], t: u32) -> Verdict
    ensures { result ≡ verdict_of (ensure_tick table.now t None) }
{
    let last = words::ticks_of(first_word(table));
    ensure(tables::is_within(t, last), Refusal::TickOutOfRange)
}

// Check 9, of a single tick of a question: 1 to τ+δ.
pub fn judge_moment(table: &[u32], t: u32) -> Verdict
    ensures { result ≡ verdict_of (ensure_moment table.now t None) }
{
    let w = first_word(table);
    let last = words::ticks_of(w) + words::carry_of(w);
    ensure(tables::is_within(t, last), Refusal::TickOutOfRange)
}

// Whether both ticks of a window are 1 to τ.
fn window_in_range(table: &[u32], first: u32, last: u32) -> bool
    ensures { result ≡ window_in_range table.now first last }
{
    let ticks = words::ticks_of(first_word(table));
    tables::is_within(first, ticks) && tables::is_within(last, ticks)
}

// Checks 9 and 19, of a window: both ticks in range, then the first not after the last.
// Two ticks and no struct, as every definition and every call from C has them.
pub fn judge_window(table: &[u32], first: u32, last: u32) -> Verdict
    ensures { result ≡ verdict_of (ensure_window table.now first last None) }
{
    ensure(window_in_range(table, first, last), Refusal::TickOutOfRange)?;
    ensure(first <= last, Refusal::FirstAfterLast)
}

// Check 10, of the buffer for a chain.
pub fn judge_room(table: &[u32], buffer: &[u32]) -> Verdict
    ensures { result ≡ verdict_of (ensure (leb (animals table.now - 1) (length buffer.now)) ChainBufferTooShort None) }
{
    let n = words::animals_of(first_word(table)) as usize;
    ensure(n - 1 <= buffer.len(), Refusal::ChainBufferTooShort)
}
