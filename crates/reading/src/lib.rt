// Loading the contacts of a log that passed its checks: they are marked in the table just opened, then built tick by tick.
#![tactic(auto)]

ghost use Rattle.std.specs.Prelude.{◌≡◌};
ghost use Rattle.rules.specs.Layout.{animals, ticks, carry};
ghost use Rattle.rules.specs.CallLists.{table_with};
ghost use Rattle.rules.specs.Reading.{logged_contacts, different, read_refusal};

use tables::Opening;

// Opens the table and adds all contacts of the log, which no check refuses; how many different ones they are.
pub fn load(log: &[u32], table: &mut [u32]) -> u32
    requires { read_refusal log.now table.old ≡ None }
    ensures value { result ≡ different (logged_contacts log.now) }
    ensures table_after { table.new ≡ table_with (animals log.now) (ticks log.now) (carry log.now) table.old (logged_contacts log.now) }
{
    let o = Opening::of_word(log[0]);
    tables::write_opened(table, o);
    let mut heads = building::no_heads();
    let end = log.len() - 1;
    let different = building::mark(&log[1..end], table, &mut heads);
    building::build(table, &heads);
    different
}
