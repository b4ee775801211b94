// The chain of a yes: document 01's rule from animal to animal, collected in a local array and written when it is whole.
#![tactic(auto)]

mod pairs;
mod steps;

ghost use Rattle.std.specs.Prelude.{◌≡◌, ◌<◌, ◌≤◌, ◌++◌, IfSome, length, take, drop};
ghost use Rattle.rules.specs.Layout.{animals};
ghost use Rattle.rules.specs.Chains.{chain_of, chain_answer, chain_leaves};
ghost use Rattle.chains.specs.Found.{words_of, collected, ChainFits};

use rules::Refusal;
use steps::Steps;
use tables::{Opening, Table};

// Writes the first words of the chain to the front of the buffer.
fn write_front(buffer: &mut [u32], from: [u32; Opening::MAX_CHAIN], count: usize)
    requires { (count ≤ length buffer.old) × (count ≤ length from) }
    ensures { buffer.new ≡ take count from ++ drop count buffer.old }
{
    buffer[..count].copy_from_slice(&from[..count]);
}

// The chain from u to v in the window, if there is one, on a table that passed its checks. The interval kept is that of the
// first row which departs in the window.
fn find(table: &Table, u: u32, v: u32, first: u32, last: u32) -> Option<Steps>
    requires { (u < animals table.now) × (v < animals table.now) }
    ensures words_value { collected result ≡ words_of (chain_of table.now u v first last) }
    ensures count_bound { IfSome result (ChainFits table.now) }
{
    let interval = cells::first_departing(table.cell(u, v), first)?.interval;
    let carry = table.carry();
    if cells::fits(carry, interval, first, last) {
        steps::collect(table, v, interval.arrival, u, interval.departure)
    } else {
        None
    }
}

// Writes the contact words of the chain from u to v in the window to the front of the buffer, and answers their number;
// where there is no journey the buffer keeps its words. Refuses with 5, 6, 7, 8, 9, 19, 10.
pub fn chain(
    table: &[u32],
    u: u32,
    v: u32,
    first: u32,
    last: u32,
    buffer: &mut [u32],
) -> Result<Option<u32>, Refusal>
    ensures value { result ≡ chain_answer table.now u v first last buffer.old }
    ensures buffer_after { buffer.new ≡ chain_leaves table.now u v first last buffer.old }
{
    let table = call_checks::judge_chain(table, u, v, first, last, buffer)?;
    let Some(steps) = find(&table, u, v, first, last) else {
        return Ok(None);
    };
    write_front(buffer, steps.words, steps.count);
    Ok(Some(steps.count as u32))
}
