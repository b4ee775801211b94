// Adding a contact to a table that passed its checks and counting it where it is new; proofs/ has what loops that add lists
// of contacts need.
#![tactic(auto)]

ghost use Rattle.std.specs.Prelude.{◌≡◌, [], ◌∷◌};
ghost use Rattle.rules.specs.CallLists.{engine, run, new_adds};
ghost use Rattle.adding_lists.specs.Contacts.{Addable};

use journeys::Contact;
use rules::Added;

// Adds the contact: 1 where it was new, else 0.
// A number and no `bool`, since callers add it up.
pub fn add_counting(table: &mut [u32], contact: Contact) -> u32
    requires { Addable table.old (contact ∷ []) }
    ensures value { result ≡ new_adds engine table.old (contact ∷ []) }
    ensures table_after { table.new ≡ run engine table.old (contact ∷ []) }
{
    match adding::add_contact(table, contact) {
        Added::New(_) => 1,
        Added::Known(_) => 0,
    }
}
