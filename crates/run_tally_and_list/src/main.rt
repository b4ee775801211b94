// Runs the commands of standard input on a memory of words, whose front is the table, on a second memory, whose front is lent
// for work, on a tally and on a list of question records, and writes every reply, counter and record. The tally and the
// records go by value through the bridges of `counted_adds`, `counted_removals` and `question_lists`. A command is its number
// and the numbers a, b, c and d, of which it may ignore some:
//
// 1 table: the first a words of the first memory are the table.
// 2 word: word a of the first memory becomes b.
// 3 open: opens the table for a animals, b ticks and the carry time c, and writes the reply.
// 4 tally: the tally becomes a new, b known, c refused and d removed.
// 5 add: adds the contact (a, b, c), counted, and writes the reply and the tally.
// 6 clear: the list becomes empty.
// 7 record: the list gets one record more, from a to b in the window from c to d.
// 8 ask: asks the list, and writes the reply, then a line for each record with its reply.
// 9 show: writes the words of the table.
// 10 remove: removes the contact (a, b, c), counted, with the first d words of the second memory lent for work, and writes the
//    reply and the tally.
// 11 work word: word a of the second memory becomes b.
// 12 show work: writes the first a words of the second memory.
//
// A reply is two numbers: which answer, and its number. The lines `too large`, `no such command`, `cut short` and `too many`
// end the run. So does a read or a write that fails: its error is what the program ends with, no command is run after it, and
// no other error comes.
#![tactic(auto)]

mod commands;
mod input;
mod output;
mod state;

use input::{Command, Next};
use state::State;
use std::io;
use std::io::Read;
use std::ops::ControlFlow;

// The most commands that are run.
const MOST_COMMANDS: u32 = 1_000_000;

// Runs the command that has this many before it, unless these are the most.
fn run_within(
    rt: &impl Print,
    memory: &mut [u32; State::MOST_TABLE],
    work: &mut [u32; State::MOST_TABLE],
    state: State,
    command: Command,
    before: u32,
) -> io::Result<ControlFlow<(), State>> {
    if before >= MOST_COMMANDS {
        return commands::stop(rt, b"too many\n");
    }
    commands::run(rt, memory, work, state, command)
}

// Runs the next command of the input, which has this many before it.
fn run_next(
    rt: &impl Print,
    reader: &mut impl Read,
    memory: &mut [u32; State::MOST_TABLE],
    work: &mut [u32; State::MOST_TABLE],
    state: State,
    before: u32,
) -> io::Result<ControlFlow<(), State>> {
    match input::read_command(reader)? {
        Next::Whole(command) => run_within(rt, memory, work, state, command, before),
        Next::CutShort => commands::stop(rt, b"cut short\n"),
        Next::End => commands::stop(rt, b""),
    }
}

// Runs the commands of the input, one after another, until they end.
fn run_all(
    rt: &(impl Input + Print),
    memory: &mut [u32; State::MOST_TABLE],
    work: &mut [u32; State::MOST_TABLE],
) -> io::Result<()> {
    let mut reader = rt.reader();
    let mut state = State::at_start();
    for before in 0..MOST_COMMANDS + 1 {
        let ControlFlow::Continue(next) = run_next(rt, &mut reader, memory, work, state, before)?
        else {
            return Ok(());
        };
        state = next;
    }
    Ok(())
}

fn main(rt: HostRuntime) -> io::Result<()> {
    let mut memory = [0u32; State::MOST_TABLE];
    let mut work = [0u32; State::MOST_TABLE];
    run_all(&rt, &mut memory, &mut work)
}
