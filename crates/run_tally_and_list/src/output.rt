// What is written: lines of numbers in decimal, with one space between.
ghost use Rattle.std.specs.Prelude.{◌+◌, ◌≤◌, IfOk};
ghost use Rattle.run_tally_and_list.specs.Bounds.{most_text, most_number};

use rules::{Question, Tally};
use std::io;

// The bytes that are written at once.
const MOST_TEXT: usize = 4096;

// The most bytes of a number and the byte behind it.
const MOST_NUMBER: usize = 11;

// Writes the text.
pub(crate) fn print(rt: &impl Print, text: &[u8]) -> io::Result<()> {
    rt.write_all(text)
}

// Writes the first `at` bytes of the text where there is no room for a number behind them; says where one goes.
fn make_room(rt: &impl Print, text: &[u8; MOST_TEXT], at: usize) -> io::Result<usize>
    requires { at ≤ most_text }
    ensures { IfOk result (λ r. r + most_number ≤ most_text) }
{
    if at + MOST_NUMBER <= MOST_TEXT {
        return Ok(at);
    }
    print(rt, &text[..at])?;
    Ok(0)
}

// Puts the number and the byte behind it into the text at `at`, and says where the next goes.
fn put_number(
    rt: &impl Print,
    text: &mut [u8; MOST_TEXT],
    at: usize,
    n: u32,
    behind: u8,
) -> io::Result<usize>
    requires { at ≤ most_text }
    ensures { IfOk result (λ r. r ≤ most_text) }
{
    let from = make_room(rt, text, at)?;
    Ok(from + table_text::put_then(n, behind, &mut text[from..]))
}

// Writes the numbers as a line.
pub(crate) fn print_numbers(rt: &impl Print, numbers: &[u32]) -> io::Result<()> {
    if numbers.len() == 0 {
        return print(rt, b"\n");
    }
    let mut text = [0u8; MOST_TEXT];
    let mut at = 0;
    for (i, n) in numbers.iter().enumerate() {
        let behind = if i + 1 < numbers.len() { b' ' } else { b'\n' };
        at = put_number(rt, &mut text, at, *n, behind)?;
    }
    print(rt, &text[..at])
}

// Which answer a reply is.
fn which_of(reply: u64) -> u32 {
    (reply / 0x1_0000_0000) as u32
}

// The number of a reply.
fn number_of(reply: u64) -> u32 {
    (reply % 0x1_0000_0000) as u32
}

// Writes a reply as a line.
pub(crate) fn print_reply(rt: &impl Print, reply: u64) -> io::Result<()> {
    print_numbers(rt, &[which_of(reply), number_of(reply)])
}

// Writes the reply and the tally of a counted call as a line.
pub(crate) fn print_counted(rt: &impl Print, reply: u64, tally: Tally) -> io::Result<()> {
    print_numbers(
        rt,
        &[
            which_of(reply),
            number_of(reply),
            tally.new,
            tally.known,
            tally.refused,
            tally.removed,
        ],
    )
}

// Writes a record as a line.
fn print_record(rt: &impl Print, q: Question) -> io::Result<()> {
    let reply = replies::of_record(q.answer);
    print_numbers(
        rt,
        &[
            q.from,
            q.to,
            q.first,
            q.last,
            which_of(reply),
            number_of(reply),
        ],
    )
}

// Writes the records, a line each.
pub(crate) fn print_records(rt: &impl Print, records: &[Question]) -> io::Result<()> {
    for q in records {
        print_record(rt, *q)?;
    }
    Ok(())
}
