// The replies of the C interface: for each type of answer, which answer it is in the upper 32 bits and its number in the
// lower 32. The words of a set are written where the caller lends room for them.
#![tactic(auto)]

ghost use Rattle.std.specs.Prelude.{◌≡◌, ◌<◌, ◌^◌};
ghost use Rattle.rules.specs.Answers.{reply, number_of, done_reply, add_reply, number_reply, ask_reply, interval_reply, set_reply, chain_reply, record_reply};
ghost use Rattle.rules.specs.Questions.{set_over};
ghost use Rattle.replies.specs.Sets.{set_leaves};

use journeys::Interval;
use rules::{Added, AnimalSet, Refusal};

// A reply: which answer, and its number.
fn reply_of(which: u32, number: u32) -> u64
    ensures { result ≡ reply which number }
{
    which as u64 * 0x1_0000_0000 + number as u64
}

// The reply of any call that is refused: 0 and the refusal's number.
fn refused(refusal: Refusal) -> u64
    ensures { result ≡ reply 0 (number_of refusal) }
{
    reply_of(0, u32::from(refusal))
}

// Of opening: 1 opened. Of a call that rewrites a whole table: 1 done.
pub fn of_done(answer: Result<(), Refusal>) -> u64
    ensures { result ≡ done_reply answer }
{
    match answer {
        Ok(()) => reply_of(1, 0),
        Err(r) => refused(r),
    }
}

// Of reading a log: 1 read, with the number of different contacts. Of writing one: 1 written, with the number of words. Of
// joining and of stays: 1, with the number of contacts new to the table.
pub fn of_number(answer: Result<u32, Refusal>) -> u64
    ensures { result ≡ number_reply answer }
{
    match answer {
        Ok(number) => reply_of(1, number),
        Err(r) => refused(r),
    }
}

// Of adding: 1 new, 2 known, each with the number of cells changed.
pub fn of_add(answer: Result<Added, Refusal>) -> u64
    ensures { result ≡ add_reply answer }
{
    match answer {
        Ok(Added::New(cells)) => reply_of(1, cells),
        Ok(Added::Known(cells)) => reply_of(2, cells),
        Err(r) => refused(r),
    }
}

// Of a yes-or-no question: 1 yes, 2 no.
pub fn of_ask(answer: Result<bool, Refusal>) -> u64
    ensures { result ≡ ask_reply answer }
{
    match answer {
        Ok(true) => reply_of(1, 0),
        Ok(false) => reply_of(2, 0),
        Err(r) => refused(r),
    }
}

// Of a question for an interval: 1 found, with departure · 2¹⁶ + arrival, 2 none.
pub fn of_interval(answer: Result<Option<Interval>, Refusal>) -> u64
    ensures { result ≡ interval_reply answer }
{
    match answer {
        Ok(Some(i)) => reply_of(1, 0) + i.departure as u64 * 0x1_0000 + i.arrival as u64,
        Ok(None) => reply_of(2, 0), // no interval
        Err(r) => refused(r),
    }
}

// Of the animals reached: 1 a set, with the number of its animals.
pub fn of_set(answer: Result<AnimalSet, Refusal>) -> u64
    ensures { result ≡ set_reply answer }
{
    match answer {
        Ok(set) => reply_of(1, set.count),
        Err(r) => refused(r),
    }
}

// Of a chain: 1 a chain, with the number of its contacts, 2 no journey.
pub fn of_chain(answer: Result<Option<u32>, Refusal>) -> u64
    ensures { result ≡ chain_reply answer }
{
    match answer {
        Ok(Some(contacts)) => reply_of(1, contacts),
        Ok(None) => reply_of(2, 0), // no journey
        Err(r) => refused(r),
    }
}

// Of a list of question records: 1 answered, with the number of records. Since that number is a length, which may be too
// high for a reply of 64 bits, the reply is required to fit.
pub fn of_list(answer: Result<usize, Refusal>) -> u64
    requires { number_reply answer < 2 ^ 64 }
    ensures { result ≡ number_reply answer }
{
    match answer {
        Ok(records) => 0x1_0000_0000 + records as u64,
        Err(r) => refused(r),
    }
}

// Of a question record: 1 yes, 2 no, 3 unasked; a refusal is held by its number.
pub fn of_record(answer: Option<Result<bool, u32>>) -> u64
    ensures { result ≡ record_reply answer }
{
    match answer {
        None => reply_of(3, 0),
        Some(Ok(true)) => reply_of(1, 0),
        Some(Ok(false)) => reply_of(2, 0),
        Some(Err(number)) => reply_of(0, number),
    }
}

// Writes the eight words of a set to the front of the lent words, as many as there is room for.
fn put_words(words: &[u32; 8], set: &mut [u32])
    ensures { set.new ≡ set_over words.now set.old }
{
    let room = words.len().min(set.len());
    set[..room].copy_from_slice(&words[..room]);
}

// Writes a set that was found to the front of the lent words; on a refusal these keep theirs.
pub fn put_set(found: &Result<AnimalSet, Refusal>, set: &mut [u32])
    ensures { set.new ≡ set_leaves found.now set.old }
{
    if let Ok(found) = found {
        put_words(&found.words, set);
    }
}
