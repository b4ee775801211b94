// From animal to animal: where a contact leads, the lowest-numbered animal to which one leads, and the chain.
ghost use Rattle.std.specs.Prelude.{◌≡◌, ◌-◌, ◌<◌, ◌≤◌, IfSome};
ghost use Rattle.rules.specs.Limits.{max_ticks};
ghost use Rattle.rules.specs.Layout.{animals};
ghost use Rattle.rules.specs.Chains.{leads, lowest, chain_from};
ghost use Rattle.chains.specs.Found.{lead_of, lowest_of, LeadsInTime, words_of, collected, ChainFits};

use journeys::Contact;
use tables::{Opening, Table};

// Where a contact leads: to the goal, or on with the next departure.
#[derive(Clone, Copy)]
enum Lead {
    There,
    On(u32),
}

// The number of contacts of a chain, and their words at the front.
// An array with a count beside it, since memory is fixed.
#[derive(Clone, Copy)]
pub(crate) struct Steps {
    pub(crate) count: usize,
    pub(crate) words: [u32; Opening::MAX_CHAIN],
}

// Where the contact leads towards the goal with arrival b, if anywhere.
#[tactic(auto, unfolding(crate::specs::Found::lead_of, rules::specs::Chains::leads))]
fn lead_to(table: &Table, goal: u32, b: u32, contact: Contact) -> Option<Lead>
    requires { (contact.from < animals table.now) × (contact.to < animals table.now) × (goal < animals table.now) × (contact.tick ≤ max_ticks) }
    ensures lead_value { lead_of result ≡ leads table.now goal b contact.from contact.tick contact.to }
    ensures lead_bound { IfSome result LeadsInTime }
{
    if !pair_cells::holds(table, contact) {
        return None;
    }
    let arrival = contact.tick + table.carry();
    if contact.to == goal {
        return if arrival == b {
            Some(Lead::There)
        } else {
            None
        };
    }
    let next = crate::pairs::departure_with(table, contact.to, goal, arrival, b)?;
    Some(Lead::On(next))
}

// The lowest-numbered animal to which a contact of `from` at a tick leads, and where it leads.
fn lowest(table: &Table, goal: u32, b: u32, from: u32, tick: u32) -> Option<(u32, Lead)>
    requires { (from < animals table.now) × (goal < animals table.now) × (tick ≤ max_ticks) }
    ensures lowest_value { lowest_of result ≡ lowest (leads table.now goal b from tick) (animals table.now) }
    ensures lead_bound { IfSome result (λ found. LeadsInTime found.1) }
{
    let n = table.animals();
    for to in 0..n {
        let contact = Contact { from, to, tick };
        if let Some(lead) = lead_to(table, goal, b, contact) {
            return Some((to, lead));
        }
    }
    None
}

// The chain from u with departure d to the goal with arrival b, if it gets there.
pub(crate) fn collect(table: &Table, goal: u32, b: u32, u: u32, d: u32) -> Option<Steps>
    requires { (u < animals table.now) × (goal < animals table.now) × (1 ≤ d) × (d ≤ max_ticks) }
    ensures words_value { collected result ≡ words_of (chain_from table.now goal b (animals table.now - 1) u d) }
    ensures count_bound { IfSome result (ChainFits table.now) }
{
    let n = table.animals() as usize;
    let mut kept = [0u32; Opening::MAX_CHAIN];
    let mut from = u;
    let mut tick = d;
    for k in 0..n - 1 {
        let (to, lead) = lowest(table, goal, b, from, tick)?;
        kept[k] = words::contact_word(Contact { from, to, tick });
        let Lead::On(next) = lead else {
            return Some(Steps {
                count: k + 1,
                words: kept,
            });
        };
        from = to;
        tick = next;
    }
    None
}
