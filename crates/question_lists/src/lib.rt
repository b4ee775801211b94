// Lists of question records, filled in their places. The table is checked once for the whole list.
#![tactic(auto)]

ghost use Rattle.std.specs.Prelude.{◌≡◌, ◌++◌, ◌≤◌, take, drop};
ghost use Rattle.rules.specs.QuestionList.{record_answer_of, asked, list_answer, list_leaves};
ghost use Rattle.question_lists.specs.Plans.{most_records};

use rules::{Question, Refusal};
use tables::Table;

// What a record holds for the answer of a single reach: yes or no, or the refusal's number.
fn record_answer(reply: Result<bool, Refusal>) -> Option<Result<bool, u32>>
    ensures { result ≡ record_answer_of reply }
{
    Some(reply.map_err(u32::from))
}

// One record filled as a single reach would answer, on a table that passed 5 and 6.
pub fn asked(table: &Table, q: Question) -> Question
    ensures { result ≡ asked table.now q }
{
    let reply = questions::reach_checked(table, q.from, q.to, q.first, q.last);
    Question {
        answer: record_answer(reply),
        ..q
    }
}

// Fills each record of the list, and answers the number of records. 5 and 6 refuse the whole list.
#[tactic(auto, using(checks::proofs::Judged::refused_with), unfolding(rules::specs::QuestionList::list_answer, rules::specs::QuestionList::list_leaves))]
pub fn ask_all(table: &[u32], list: &mut [Question]) -> Result<usize, Refusal>
    ensures { (list.new ≡ list_leaves table.now list.old) × (result ≡ list_answer table.now list.old) }
{
    let table = checks::judge_table(table)?;
    for q in list.iter_mut() {
        *q = asked(&table, *q);
    }
    Ok(list.len())
}

// The most records that an array of them holds.
pub const MOST_RECORDS: usize = 64;

// An array of records, and what a list of its first records answered.
// The count of those records is the caller's, since memory is fixed.
#[derive(Clone, Copy)]
pub struct Records {
    pub list: [Question; MOST_RECORDS],
    pub answer: Result<usize, Refusal>,
}

// From an array by value to a list lent, and back: its first `count` records are lent to `ask_all`.
pub fn ask_first(table: &[u32], list: [Question; MOST_RECORDS], count: usize) -> Records
    requires { count ≤ most_records }
    ensures { (result.list ≡ list_leaves table.now (take count list) ++ drop count list) × (result.answer ≡ list_answer table.now (take count list)) }
{
    let mut lent = list;
    let answer = ask_all(table, &mut lent[..count]);
    Records { list: lent, answer }
}
