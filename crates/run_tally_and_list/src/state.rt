// What the commands are run on besides the two memories.
ghost use Rattle.std.specs.Prelude.{◌≤◌};
ghost use Rattle.question_lists.specs.Plans.{most_records};
ghost use Rattle.run_tally_and_list.specs.Bounds.{most_table};

use question_lists::MOST_RECORDS;
use rules::{Question, Tally};

// The number of words that are the table, the tally, and an array of records with the number of those that are the list. The
// table lent is within its memory, and the list within its array: arrays with a count beside them, since memory is fixed.
#[derive(Clone, Copy)]
pub struct State {
    pub length: usize,
    pub tally: Tally,
    pub records: [Question; MOST_RECORDS],
    pub count: usize,
    ghost table_within: { length ≤ most_table },
    ghost list_within: { count ≤ most_records },
}

// A record that is not asked yet.
pub(crate) fn unasked(from: u32, to: u32, first: u32, last: u32) -> Question {
    Question {
        from,
        to,
        first,
        last,
        answer: None,
    }
}

impl State {
    // The words of each memory: the table of 8 animals and 64 ticks.
    pub const MOST_TABLE: usize = 4161;

    // No table, a zero tally and an empty list.
    pub(crate) fn at_start() -> State {
        State {
            length: 0,
            tally: Tally {
                new: 0,
                known: 0,
                refused: 0,
                removed: 0,
            },
            records: [unasked(0, 0, 0, 0); MOST_RECORDS],
            count: 0,
        }
    }

    // The state whose table is the first `length` words, unless the memory has fewer.
    pub(crate) fn with_length(self, length: u32) -> Option<State> {
        if length as usize > State::MOST_TABLE {
            return None;
        }
        let mut next = self;
        next.length = length as usize;
        Some(next)
    }

    // The state with this tally.
    pub(crate) fn with_tally(self, tally: Tally) -> State {
        let mut next = self;
        next.tally = tally;
        next
    }

    // The state with these records.
    pub(crate) fn with_records(self, records: [Question; MOST_RECORDS]) -> State {
        let mut next = self;
        next.records = records;
        next
    }

    // The state whose list has one record more, unless the array is full.
    pub(crate) fn with_record(self, record: Question) -> Option<State> {
        let count = self.count;
        if count >= MOST_RECORDS {
            return None;
        }
        let mut next = self;
        next.records[count] = record;
        next.count = count + 1;
        Some(next)
    }

    // The state with an empty list.
    pub(crate) fn cleared(self) -> State {
        let mut next = self;
        next.count = 0;
        next
    }
}
