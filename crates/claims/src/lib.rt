// The check of a claimed chain.
#![tactic(auto)]

mod held;

ghost use Rattle.std.specs.Prelude.{◌≡◌};
ghost use Rattle.rules.specs.Claims.{form_journey, claimed_answer};
ghost use Rattle.claims.specs.Following.{follows};

use rules::Refusal;
use tables::Table;

// Whether the words, of which there may be none, lead on from u to v, each a held contact in the window that leaves where
// and when the one before it has arrived.
fn follows(table: &Table, u: u32, v: u32, first: u32, last: u32, chain: &[u32]) -> bool
    ensures { result ≡ follows table.now v first last u 0 chain.now }
{
    let carry = table.carry();
    let mut x = u;
    let mut a = 0;
    for w in chain {
        if !held::goes_on(table, *w, first, last, x, a) {
            return false;
        }
        x = words::to_of(*w);
        a = words::tick_of(*w) + carry;
    }
    x == v
}

// Whether there are words and they form a journey of held contacts from u to v that fits the window.
fn form_journey(table: &Table, u: u32, v: u32, first: u32, last: u32, chain: &[u32]) -> bool
    ensures { result ≡ form_journey table.now v first last u 0 chain.now }
{
    !chain.is_empty() && follows(table, u, v, first, last, chain)
}

// Whether the words form a journey of held contacts from u to v that fits the window. Refuses with 5, 6, 7, 8, 9, 19.
pub fn claimed(
    table: &[u32],
    u: u32,
    v: u32,
    first: u32,
    last: u32,
    chain: &[u32],
) -> Result<bool, Refusal>
    ensures { result ≡ claimed_answer table.now u v first last chain.now }
{
    let table = call_checks::judge_reach(table, u, v, first, last)?;
    Ok(form_journey(&table, u, v, first, last, chain))
}
