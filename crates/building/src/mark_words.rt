// One contact marked, and the contacts of words, one after the other.
ghost use Rattle.std.specs.Prelude.{◌≡◌, [], map, ℕ};
ghost use Rattle.words.specs.Words.{contact_of};
ghost use Rattle.rules.specs.Reading.{different};
ghost use Rattle.building.specs.Stage.{ContactsMarked, CanMarkContact, MarksContact, CanMarkWords};

use crate::marks;
use journeys::Contact;
use tables::Opening;

// Marks the contact in the words behind the opening word: 1 where it was not marked before, else 0.
// A number and no `bool`, since callers add it up.
pub fn mark_contact(
    body: &mut [u32],
    n: usize,
    size: usize,
    contact: Contact,
    heads: &mut [u32; Opening::MAX_TICKS as usize],
) -> u32
    requires { CanMarkContact n size contact heads.old body.old }
    ensures { MarksContact n size contact heads.old body.old heads.new body.new result }
{
    let cell = contact.from as usize * n + contact.to as usize;
    marks::mark(body, heads, cell, size, contact.tick as usize)
}

// Marks the contacts of all words; how many different ones they are.
pub(crate) fn mark_words(
    words: &[u32],
    body: &mut [u32],
    n: usize,
    size: usize,
    heads: &mut [u32; Opening::MAX_TICKS as usize],
) -> u32
    requires { CanMarkWords n size words.now heads.old body.old }
    ensures value { result ≡ different (map contact_of words.now) }
    ensures by_index { (δ : ℕ) → ContactsMarked n size δ [] heads.old body.old → ContactsMarked n size δ (map contact_of words.now) heads.new body.new }
{
    let mut count = 0;
    for w in words {
        count += mark_contact(body, n, size, words::contact_of(*w), heads);
    }
    count
}
