// Adding the contacts of stays to a table, where both passed their checks. Tick by tick one pass over the records marks the
// pens of each animal, and the contacts of every two different animals that share a pen are added.
#![tactic(auto)]

ghost use Rattle.std.specs.Prelude.{◌≡◌, ◌/◌, ◌≤◌, ◌<◌, length};
ghost use Rattle.rules.specs.Limits.{max_animals, max_ticks, max_pen};
ghost use Rattle.rules.specs.CallLists.{engine, run, new_adds};
ghost use Rattle.rules.specs.Stays.{stay_contacts, stays_refusal};
ghost use Rattle.rules.specs.StayRule.{AreStays};
ghost use Rattle.adding_lists.specs.Contacts.{Addable};
ghost use Rattle.stays.specs.Meetings.{pen_bit, PensBy, meeting, meetings_from, meetings_at};

use journeys::Contact;
use rules::Stay;
use tables::Opening;

// The bit of the record's pen, where its animal was there at tick t, else 0.
// No `Option`: bits are joined, and 0 joins nothing.
fn pen_bit(stay: Stay, t: u32) -> u64
    requires { stay.pen ≤ max_pen }
    ensures { result ≡ pen_bit stay t }
{
    if t < stay.first || stay.last < t {
        return 0;
    }
    1u64 << stay.pen
}

// The pens of every animal at tick t, one bit for each pen.
fn pens_at(stays: &[u32], t: u32) -> [u64; Opening::MAX_ANIMALS as usize]
    requires { AreStays max_animals max_ticks stays.now }
    ensures { PensBy stays.now t (length stays.now / 4) result }
{
    let mut pens = [0u64; Opening::MAX_ANIMALS as usize];
    let count = stays.len() / 4;
    for i in 0..count {
        let stay = stay_checks::stay_at(stays, i);
        let bit = pen_bit(stay, t);
        let at = stay.animal as usize;
        pens[at] = pens[at] | bit;
    }
    pens
}

// Adds the contact (u, v, t) where u and v differ and share a pen: 1 where it was new, else 0.
// A number and no `bool`, since callers add it up.
#[tactic(auto, using(crate::proofs::Meetings::own))]
fn add_meeting(
    table: &mut [u32],
    pens: &[u64; Opening::MAX_ANIMALS as usize],
    u: u32,
    v: u32,
    t: u32,
) -> u32
    requires u_lt_max_animals { (u < max_animals) × (v < max_animals) }
    requires addable { Addable table.old (meeting pens.now t u v) }
    ensures value { result ≡ new_adds engine table.old (meeting pens.now t u v) }
    ensures table_after { table.new ≡ run engine table.old (meeting pens.now t u v) }
{
    if u == v {
        return 0;
    }
    let shared = pens[u as usize] & pens[v as usize];
    if shared == 0 {
        return 0;
    }
    let contact = Contact {
        from: u,
        to: v,
        tick: t,
    };
    adding_lists::add_counting(table, contact)
}

// Adds the contacts of tick t from u: how many were new. An animal in no pen has none.
fn add_meetings_from(
    table: &mut [u32],
    pens: &[u64; Opening::MAX_ANIMALS as usize],
    n: u32,
    u: u32,
    t: u32,
) -> u32
    requires n_le_max_animals { (n ≤ max_animals) × (u < n) }
    requires addable { Addable table.old (meetings_from pens.now n t u) }
    ensures value { result ≡ new_adds engine table.old (meetings_from pens.now n t u) }
    ensures table_after { table.new ≡ run engine table.old (meetings_from pens.now n t u) }
{
    if pens[u as usize] == 0 {
        return 0;
    }
    let mut new = 0;
    for v in 0..n {
        new += add_meeting(table, pens, u, v, t);
    }
    new
}

// Adds the contacts of tick t: how many were new.
fn add_meetings(
    table: &mut [u32],
    pens: &[u64; Opening::MAX_ANIMALS as usize],
    n: u32,
    t: u32,
) -> u32
    requires n_le_max_animals { n ≤ max_animals }
    requires addable { Addable table.old (meetings_at pens.now n t) }
    ensures value { result ≡ new_adds engine table.old (meetings_at pens.now n t) }
    ensures table_after { table.new ≡ run engine table.old (meetings_at pens.now n t) }
{
    let mut new = 0;
    for u in 0..n {
        new += add_meetings_from(table, pens, n, u, t);
    }
    new
}

// Adds the contacts of the stays, tick by tick: how many were new.
pub fn add_stays(table: &mut [u32], stays: &[u32]) -> u32
    requires { stays_refusal table.old stays.now ≡ None }
    ensures value { result ≡ new_adds engine table.old (stay_contacts table.old stays.now) }
    ensures table_after { table.new ≡ run engine table.old (stay_contacts table.old stays.now) }
{
    let n = words::animals_of(table[0]);
    let ticks = words::ticks_of(table[0]);
    let mut new = 0;
    for i in 0..ticks {
        let t = i + 1;
        let pens = pens_at(stays, t);
        new += add_meetings(table, &pens, n, t);
    }
    new
}
