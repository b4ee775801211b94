// The calls of the engine. Each checks in the documents' order and refuses with nothing written, and its reply and every
// lent word afterwards are those of its rule, for every input.
#![tactic(auto, using(checks::proofs::Judged::refused_with), unfolding(checks::specs::Verdicts::verdict_of, logs::specs::Written::written, rules::specs::Opening::open_answer, rules::specs::Opening::open_leaves, rules::specs::Adding::add_answer, rules::specs::Adding::add_leaves, rules::specs::Logs::write_refusal, rules::specs::Logs::write_answer, rules::specs::Logs::write_leaves, rules::specs::Reading::read_answer, rules::specs::Reading::read_leaves, rules::specs::Removing::remove_answer, rules::specs::Removing::remove_leaves, rules::specs::Removing::remove_work, rules::specs::Joining::join_answer, rules::specs::Joining::join_leaves, rules::specs::Stays::stays_answer, rules::specs::Stays::stays_leaves))]

ghost use Rattle.std.specs.Prelude.{◌≡◌};
ghost use Rattle.journeys.specs.Journey.{contact};
ghost use Rattle.rules.specs.Opening.{open_answer, open_leaves};
ghost use Rattle.rules.specs.Adding.{add_answer, add_leaves};
ghost use Rattle.rules.specs.Logs.{write_answer, write_leaves};
ghost use Rattle.rules.specs.Reading.{read_answer, read_leaves};
ghost use Rattle.rules.specs.Removing.{remove_answer, remove_leaves, remove_work};
ghost use Rattle.rules.specs.Joining.{join_answer, join_leaves};
ghost use Rattle.rules.specs.Stays.{stays_answer, stays_leaves};

use journeys::Contact;
use rules::{Added, Refusal};

// Opens a table for n animals, τ ticks and carry time δ: every cell empty. Refuses with 1, 2, 3, 4.
pub fn open_table(table: &mut [u32], animals: u32, ticks: u32, carry: u32) -> Result<(), Refusal>
    ensures value { result ≡ open_answer animals ticks carry table.old }
    ensures table_after { table.new ≡ open_leaves animals ticks carry table.old }
{
    let opening = checks::judge_open(table, animals, ticks, carry)?;
    tables::write_opened(table, opening);
    Ok(())
}

// Adds the contact (u, v, t), and answers new or known with the number of cells changed. Refuses with 5, 6, 7, 8, 9.
pub fn add_contact(table: &mut [u32], u: u32, v: u32, t: u32) -> Result<Added, Refusal>
    ensures value { result ≡ add_answer table.old (contact u v t) }
    ensures table_after { table.new ≡ add_leaves table.old (contact u v t) }
{
    let contact = Contact {
        from: u,
        to: v,
        tick: t,
    };
    call_checks::judge_add(table, contact)?;
    Ok(adding::add_contact(table, contact))
}

// Removes the contact (u, v, t), with a second table of the same length lent for work, and answers that it is done. Both
// tables then hold the fresh table over the contacts left, whatever the second held before. Refuses with 5, 6, 20, 7, 8, 9,
// 21.
pub fn remove(table: &mut [u32], work: &mut [u32], u: u32, v: u32, t: u32) -> Result<(), Refusal>
    ensures value { result ≡ remove_answer table.old work.old (contact u v t) }
    ensures table_after { table.new ≡ remove_leaves table.old work.old (contact u v t) }
    ensures work_after { work.new ≡ remove_work table.old work.old (contact u v t) }
{
    let contact = Contact {
        from: u,
        to: v,
        tick: t,
    };
    call_checks::judge_remove(table, work, contact)?;
    removing::remove_held(table, work, contact);
    Ok(())
}

// Joins the second table into the first: adds the contacts that the second holds, and answers how many were new to the
// first. The second is only read. Refuses with 5, 6 for the first table, then for the second, and with 17.
pub fn join(first: &mut [u32], second: &[u32]) -> Result<u32, Refusal>
    ensures value { result ≡ join_answer first.old second.now }
    ensures first_after { first.new ≡ join_leaves first.old second.now }
{
    let second = call_checks::judge_join(first, second)?;
    Ok(joining::join_held(first, &second))
}

// Adds the contacts of the stays, four words to a record: two different animals in the same pen at a shared tick met at that
// tick, both ways. Answers how many contacts were new to the table. Refuses with 5, 6, 18.
pub fn add_stays(table: &mut [u32], stays: &[u32]) -> Result<u32, Refusal>
    ensures value { result ≡ stays_answer table.old stays.now }
    ensures table_after { table.new ≡ stays_leaves table.old stays.now }
{
    stay_checks::judge_stays(table, stays)?;
    Ok(stays::add_stays(table, stays))
}

// Writes the log of the table to the front of the buffer, and answers the number of words written. Refuses with 5, 6, 15.
pub fn write_log(table: &[u32], buffer: &mut [u32]) -> Result<u32, Refusal>
    ensures value { result ≡ write_answer table.now buffer.old }
    ensures buffer_after { buffer.new ≡ write_leaves table.now buffer.old }
{
    let table = checks::judge_table(table)?;
    let written = logs::write_held(&table, buffer)?;
    Ok(written)
}

// Reads the log into the table, whatever that held: opens it and adds all contacts, and answers how many different ones they
// are. The whole log is checked before a word is written. Refuses with 11, 4, 12, 13, 14.
pub fn read_log(log: &[u32], table: &mut [u32]) -> Result<u32, Refusal>
    ensures value { result ≡ read_answer log.now table.old }
    ensures table_after { table.new ≡ read_leaves log.now table.old }
{
    log_checks::judge_read(log, table)?;
    Ok(reading::load(log, table))
}
