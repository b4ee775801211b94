// The C interface of the engine, for the Rust herd program. A slice is a pointer and a length in words. The reply's upper
// 32 bits say which answer, the lower 32 its number: 0 is a refusal with its number; 1 and 2 are the answers of the call.
#![tactic(auto)]

ghost use Rattle.std.specs.Prelude.{◌≡◌};
ghost use Rattle.journeys.specs.Journey.{contact};
ghost use Rattle.rules.specs.Answers.{done_reply, add_reply, number_reply, ask_reply, interval_reply, set_reply, chain_reply};
ghost use Rattle.rules.specs.Opening.{open_answer, open_leaves};
ghost use Rattle.rules.specs.Adding.{add_answer, add_leaves};
ghost use Rattle.rules.specs.Logs.{write_answer, write_leaves};
ghost use Rattle.rules.specs.Reading.{read_answer, read_leaves};
ghost use Rattle.rules.specs.Removing.{remove_answer, remove_leaves, remove_work};
ghost use Rattle.rules.specs.Joining.{join_answer, join_leaves};
ghost use Rattle.rules.specs.Stays.{stays_answer, stays_leaves};
ghost use Rattle.rules.specs.Questions.{reach_answer, earliest_answer, latest_answer, connected_answer, reached_set, reached_leaves};
ghost use Rattle.rules.specs.Chains.{chain_answer, chain_leaves};
ghost use Rattle.rules.specs.Claims.{claimed_answer};

// Opens a table: 1 opened, 0 refused.
#[unsafe(no_mangle)]
pub extern "C" fn herd_open(table: &mut [u32], animals: u32, ticks: u32, carry: u32) -> u64
    ensures value { result ≡ done_reply (open_answer animals ticks carry table.old) }
    ensures table_after { table.new ≡ open_leaves animals ticks carry table.old }
{
    replies::of_done(engine::open_table(table, animals, ticks, carry))
}

// Adds a contact: 1 new, 2 known, each with the number of cells changed, 0 refused.
#[unsafe(no_mangle)]
pub extern "C" fn herd_add(table: &mut [u32], u: u32, v: u32, t: u32) -> u64
    ensures value { result ≡ add_reply (add_answer table.old (contact u v t)) }
    ensures table_after { table.new ≡ add_leaves table.old (contact u v t) }
{
    replies::of_add(engine::add_contact(table, u, v, t))
}

// Removes a contact with a second table lent for work: 1 done, 0 refused.
#[unsafe(no_mangle)]
pub extern "C" fn herd_remove(table: &mut [u32], work: &mut [u32], u: u32, v: u32, t: u32) -> u64
    ensures value { result ≡ done_reply (remove_answer table.old work.old (contact u v t)) }
    ensures table_after { table.new ≡ remove_leaves table.old work.old (contact u v t) }
    ensures work_after { work.new ≡ remove_work table.old work.old (contact u v t) }
{
    replies::of_done(engine::remove(table, work, u, v, t))
}

// Joins the second table into the first: 1 joined, with the number of contacts new to the first, 0 refused.
#[unsafe(no_mangle)]
pub extern "C" fn herd_join(first: &mut [u32], second: &[u32]) -> u64
    ensures value { result ≡ number_reply (join_answer first.old second.now) }
    ensures first_after { first.new ≡ join_leaves first.old second.now }
{
    replies::of_number(engine::join(first, second))
}

// Adds the contacts of stays, four words to a record: 1 added, with the number of contacts new to the table, 0 refused.
#[unsafe(no_mangle)]
pub extern "C" fn herd_stays(table: &mut [u32], stays: &[u32]) -> u64
    ensures value { result ≡ number_reply (stays_answer table.old stays.now) }
    ensures table_after { table.new ≡ stays_leaves table.old stays.now }
{
    replies::of_number(engine::add_stays(table, stays))
}

// Reads a log into a table: 1 read, with the number of different contacts, 0 refused.
#[unsafe(no_mangle)]
pub extern "C" fn herd_read_log(log: &[u32], table: &mut [u32]) -> u64
    ensures value { result ≡ number_reply (read_answer log.now table.old) }
    ensures table_after { table.new ≡ read_leaves log.now table.old }
{
    replies::of_number(engine::read_log(log, table))
}

// Writes a table's log: 1 written, with the number of words, 0 refused.
#[unsafe(no_mangle)]
pub extern "C" fn herd_write_log(table: &[u32], buffer: &mut [u32]) -> u64
    ensures value { result ≡ number_reply (write_answer table.now buffer.old) }
    ensures buffer_after { buffer.new ≡ write_leaves table.now buffer.old }
{
    replies::of_number(engine::write_log(table, buffer))
}

// Asks whether v can have been reached from u in a window: 1 yes, 2 no, 0 refused.
#[unsafe(no_mangle)]
pub extern "C" fn herd_reach(table: &[u32], u: u32, v: u32, first: u32, last: u32) -> u64
    ensures { result ≡ ask_reply (reach_answer table.now u v first last) }
{
    replies::of_ask(questions::reach(table, u, v, first, last))
}

// Writes the chain from u to v in a window: 1 a chain, with the number of its contacts, 2 no journey, 0 refused.
#[unsafe(no_mangle)]
pub extern "C" fn herd_chain(
    table: &[u32],
    u: u32,
    v: u32,
    first: u32,
    last: u32,
    buffer: &mut [u32],
) -> u64
    ensures value { result ≡ chain_reply (chain_answer table.now u v first last buffer.old) }
    ensures buffer_after { buffer.new ≡ chain_leaves table.now u v first last buffer.old }
{
    replies::of_chain(chains::chain(table, u, v, first, last, buffer))
}

// Asks for the interval from u to v with the earliest arrival, of those that depart at or after `first`: 1 found, with
// departure · 2¹⁶ + arrival, 2 none, 0 refused.
#[unsafe(no_mangle)]
pub extern "C" fn herd_earliest(table: &[u32], u: u32, v: u32, first: u32) -> u64
    ensures { result ≡ interval_reply (earliest_answer table.now u v first) }
{
    replies::of_interval(questions::earliest(table, u, v, first))
}

// Asks for the interval from u to v with the latest departure, of those that arrive by `last`: 1 found, with
// departure · 2¹⁶ + arrival, 2 none, 0 refused.
#[unsafe(no_mangle)]
pub extern "C" fn herd_latest(table: &[u32], u: u32, v: u32, last: u32) -> u64
    ensures { result ≡ interval_reply (latest_answer table.now u v last) }
{
    replies::of_interval(questions::latest(table, u, v, last))
}

// Asks whether every animal can have been reached from every other in a window: 1 yes, 2 no, 0 refused.
#[unsafe(no_mangle)]
pub extern "C" fn herd_connected(table: &[u32], first: u32, last: u32) -> u64
    ensures { result ≡ ask_reply (connected_answer table.now first last) }
{
    replies::of_ask(questions::connected(table, first, last))
}

// Writes the set of the animals reached from u in a window: 1 a set, with the number of its animals, 0 refused.
#[unsafe(no_mangle)]
pub extern "C" fn herd_reached(table: &[u32], u: u32, first: u32, last: u32, set: &mut [u32]) -> u64
    ensures value { result ≡ set_reply (reached_set table.now u first last) }
    ensures set_after { set.new ≡ reached_leaves table.now u first last set.old }
{
    let found = questions::reached(table, u, first, last);
    replies::put_set(&found, set);
    replies::of_set(found)
}

// Asks whether words are a journey of held contacts from u to v that fits a window: 1 yes, 2 no, 0 refused.
#[unsafe(no_mangle)]
pub extern "C" fn herd_claimed(
    table: &[u32],
    u: u32,
    v: u32,
    first: u32,
    last: u32,
    chain: &[u32],
) -> u64
    ensures { result ≡ ask_reply (claimed_answer table.now u v first last chain.now) }
{
    replies::of_ask(claims::claimed(table, u, v, first, last, chain))
}
