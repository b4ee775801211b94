// Counted removing: a thin function on a tally that the caller lends, over one that takes the tally by value.
#![tactic(auto)]

ghost use Rattle.std.specs.Prelude.{◌≡◌};
ghost use Rattle.journeys.specs.Journey.{contact};
ghost use Rattle.rules.specs.Counting.{counted_removal, counted_removal_leaves, counted_removal_work, counted_removal_tally};

use rules::{Refusal, Tally};

// What a counted removal gives: its answer, and the tally afterwards.
#[derive(Clone, Copy)]
pub struct Removed {
    pub tally: Tally,
    pub answer: Result<(), Refusal>,
}

// The counted removal on a tally by value. Refuses with 16, 5, 6, 20, 7, 8, 9, 21.
pub fn remove_counted(
    table: &mut [u32],
    work: &mut [u32],
    tally: Tally,
    u: u32,
    v: u32,
    t: u32,
) -> Removed
    ensures tally_value { result.tally ≡ counted_removal_tally tally table.old work.old (contact u v t) }
    ensures answer_value { result.answer ≡ counted_removal tally table.old work.old (contact u v t) }
    ensures table_after { table.new ≡ counted_removal_leaves tally table.old work.old (contact u v t) }
    ensures work_after { work.new ≡ counted_removal_work tally table.old work.old (contact u v t) }
{
    if !tallies::has_room(tally) {
        return Removed {
            tally,
            answer: Err(Refusal::TallyFull),
        };
    }
    let answer = engine::remove(table, work, u, v, t);
    Removed {
        tally: tallies::raise_by_removal(tally, answer),
        answer,
    }
}

// Removes the contact and moves the tally lent by the caller. Refuses with 16, 5, 6, 20, 7, 8, 9, 21.
pub fn counted_remove(
    table: &mut [u32],
    work: &mut [u32],
    tally: &mut Tally,
    u: u32,
    v: u32,
    t: u32,
) -> Result<(), Refusal>
    ensures tally_after { tally.exit.now ≡ counted_removal_tally tally.entry.now table.old work.old (contact u v t) }
    ensures value { result ≡ counted_removal tally.entry.now table.old work.old (contact u v t) }
    ensures table_after { table.new ≡ counted_removal_leaves tally.entry.now table.old work.old (contact u v t) }
    ensures work_after { work.new ≡ counted_removal_work tally.entry.now table.old work.old (contact u v t) }
{
    let before = *tally;
    let removed = remove_counted(table, work, before, u, v, t);
    *tally = removed.tally;
    removed.answer
}

// From a tally by value to the tally lent, and back: whoever calls this needs no walk. Refuses with 16, 5, 6, 20, 7, 8, 9, 21.
pub fn removed_by_value(
    table: &mut [u32],
    work: &mut [u32],
    tally: Tally,
    u: u32,
    v: u32,
    t: u32,
) -> Removed
    ensures tally_value { result.tally ≡ counted_removal_tally tally table.old work.old (contact u v t) }
    ensures answer_value { result.answer ≡ counted_removal tally table.old work.old (contact u v t) }
    ensures table_after { table.new ≡ counted_removal_leaves tally table.old work.old (contact u v t) }
    ensures work_after { work.new ≡ counted_removal_work tally table.old work.old (contact u v t) }
{
    let mut lent = tally;
    let answer = counted_remove(table, work, &mut lent, u, v, t);
    Removed {
        tally: lent,
        answer,
    }
}
