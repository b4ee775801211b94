// The tally of counted calls: whether it has room for one more, and which of its numbers a call raises.
#![tactic(auto)]

ghost use Rattle.std.specs.Prelude.{◌≡◌, ◌+◌, true};
ghost use Rattle.rules.specs.Counting.{tally_sum, has_room, raised, raised_by_removal};

use rules::{Added, Refusal, Tally};

// A tally whose numbers sum to this or more has no room for another call.
pub const FULL_TALLY: u64 = 4_294_967_295;

// The sum of the tally's four numbers.
fn sum_of(tally: Tally) -> u64
    ensures { result ≡ tally_sum tally }
{
    tally.new as u64 + tally.known as u64 + tally.refused as u64 + tally.removed as u64
}

// Whether the tally has room for one more call.
pub fn has_room(tally: Tally) -> bool
    ensures { result ≡ has_room tally }
{
    sum_of(tally) < FULL_TALLY
}

// The tally with `refused` raised by 1.
#[tactic(auto, using(crate::proofs::Counts::room))]
fn raise_refused(tally: Tally) -> Tally
    requires { has_room tally ≡ true }
    ensures { result ≡ record { new = tally.new; known = tally.known; refused = tally.refused + 1; removed = tally.removed } }
{
    Tally {
        refused: tally.refused + 1,
        ..tally
    }
}

// The tally with the one number raised by 1 that counts the answer of an add.
#[tactic(auto, using(crate::proofs::Counts::room))]
pub fn raise(tally: Tally, answer: Result<Added, Refusal>) -> Tally
    requires { has_room tally ≡ true }
    ensures { result ≡ raised answer tally }
{
    match answer {
        Ok(Added::New(_)) => Tally {
            new: tally.new + 1,
            ..tally
        },
        Ok(Added::Known(_)) => Tally {
            known: tally.known + 1,
            ..tally
        },
        Err(_) => raise_refused(tally),
    }
}

// The tally with the one number raised by 1 that counts the answer of a removal.
#[tactic(auto, using(crate::proofs::Counts::room))]
pub fn raise_by_removal(tally: Tally, answer: Result<(), Refusal>) -> Tally
    requires { has_room tally ≡ true }
    ensures { result ≡ raised_by_removal answer tally }
{
    match answer {
        Ok(()) => Tally {
            removed: tally.removed + 1,
            ..tally
        },
        Err(_) => raise_refused(tally),
    }
}
