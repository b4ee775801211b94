// The contact of one word, on a table that passed its checks.
ghost use Rattle.std.specs.Prelude.{◌≡◌};
ghost use Rattle.rules.specs.Windows.{in_window};
ghost use Rattle.rules.specs.Claims.{held_word, goes_on};

use journeys::Contact;
use tables::Table;

// Whether the word is that of a contact held by the table.
#[tactic(auto, unfolding(rules::specs::Claims::held_word))]
fn held_word(table: &Table, w: u32) -> bool
    ensures { result ≡ held_word table.now w }
{
    let n = table.animals();
    let contact = words::contact_of(w);
    words::is_contact(w) && contact.from < n && contact.to < n && pair_cells::holds(table, contact)
}

// Whether the contact lies in the window from `first` to `last`.
fn in_window(contact: Contact, first: u32, last: u32) -> bool
    ensures { result ≡ in_window first last contact }
{
    first <= contact.tick && contact.tick <= last
}

// Whether the word's contact is held, lies in the window and leaves x at or after tick a.
#[tactic(auto, unfolding(rules::specs::Claims::goes_on))]
pub(crate) fn goes_on(table: &Table, w: u32, first: u32, last: u32, x: u32, a: u32) -> bool
    ensures { result ≡ goes_on table.now first last x a w }
{
    let contact = words::contact_of(w);
    contact.from == x && a <= contact.tick && in_window(contact, first, last) && held_word(table, w)
}
