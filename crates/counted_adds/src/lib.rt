// Counted adding: a thin function on a tally that the caller lends, over one that takes the tally by value.
#![tactic(auto)]

ghost use Rattle.std.specs.Prelude.{◌≡◌};
ghost use Rattle.journeys.specs.Journey.{contact};
ghost use Rattle.rules.specs.Counting.{counted_answer, counted_leaves, counted_tally};

use rules::{Added, Refusal, Tally};

// What a counted add gives: its answer, and the tally afterwards.
#[derive(Clone, Copy)]
pub struct Counted {
    pub tally: Tally,
    pub answer: Result<Added, Refusal>,
}

// The counted add on a tally by value. Refuses with 16, 5, 6, 7, 8, 9.
pub fn add_counted(table: &mut [u32], tally: Tally, u: u32, v: u32, t: u32) -> Counted
    ensures tally_value { result.tally ≡ counted_tally tally table.old (contact u v t) }
    ensures answer_value { result.answer ≡ counted_answer tally table.old (contact u v t) }
    ensures table_after { table.new ≡ counted_leaves tally table.old (contact u v t) }
{
    if !tallies::has_room(tally) {
        return Counted {
            tally,
            answer: Err(Refusal::TallyFull),
        };
    }
    let answer = engine::add_contact(table, u, v, t);
    Counted {
        tally: tallies::raise(tally, answer),
        answer,
    }
}

// Adds the contact and moves the tally lent by the caller. Refuses with 16, 5, 6, 7, 8, 9.
pub fn counted_add(
    table: &mut [u32],
    tally: &mut Tally,
    u: u32,
    v: u32,
    t: u32,
) -> Result<Added, Refusal>
    ensures tally_after { tally.exit.now ≡ counted_tally tally.entry.now table.old (contact u v t) }
    ensures value { result ≡ counted_answer tally.entry.now table.old (contact u v t) }
    ensures table_after { table.new ≡ counted_leaves tally.entry.now table.old (contact u v t) }
{
    let before = *tally;
    let counted = add_counted(table, before, u, v, t);
    *tally = counted.tally;
    counted.answer
}

// From a tally by value to the tally lent, and back: whoever calls this needs no walk. Refuses with 16, 5, 6, 7, 8, 9.
pub fn counted_by_value(table: &mut [u32], tally: Tally, u: u32, v: u32, t: u32) -> Counted
    ensures tally_value { result.tally ≡ counted_tally tally table.old (contact u v t) }
    ensures answer_value { result.answer ≡ counted_answer tally table.old (contact u v t) }
    ensures table_after { table.new ≡ counted_leaves tally table.old (contact u v t) }
{
    let mut lent = tally;
    let answer = counted_add(table, &mut lent, u, v, t);
    Counted {
        tally: lent,
        answer,
    }
}
