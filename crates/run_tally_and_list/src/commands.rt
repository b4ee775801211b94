// The commands on a table, a memory lent for work, a tally and a list of question records.
use crate::input::Command;
use crate::output;
use crate::state::State;
use std::io;
use std::ops::ControlFlow;

// Writes the text, and ends the commands.
pub(crate) fn stop(rt: &impl Print, text: &[u8]) -> io::Result<ControlFlow<(), State>> {
    output::print(rt, text)?;
    Ok(ControlFlow::Break(()))
}

// Goes on with the state; where there is none, something was too large.
fn go_on(rt: &impl Print, next: Option<State>) -> io::Result<ControlFlow<(), State>> {
    match next {
        Some(state) => Ok(ControlFlow::Continue(state)),
        None => stop(rt, b"too large\n"),
    }
}

// Word `at` of a memory becomes `word`.
fn put_word(
    rt: &impl Print,
    memory: &mut [u32],
    state: State,
    at: u32,
    word: u32,
) -> io::Result<ControlFlow<(), State>> {
    let Some(place) = memory.get_mut(at as usize) else {
        return stop(rt, b"too large\n");
    };
    *place = word;
    Ok(ControlFlow::Continue(state))
}

// Opens the table, and writes the reply.
fn open(
    rt: &impl Print,
    table: &mut [u32],
    state: State,
    animals: u32,
    ticks: u32,
    carry: u32,
) -> io::Result<ControlFlow<(), State>> {
    let answer = engine::open_table(table, animals, ticks, carry);
    output::print_reply(rt, replies::of_done(answer))?;
    Ok(ControlFlow::Continue(state))
}

// Writes the words.
fn show(rt: &impl Print, words: &[u32], state: State) -> io::Result<ControlFlow<(), State>> {
    output::print_numbers(rt, words)?;
    Ok(ControlFlow::Continue(state))
}

// Writes the first `count` words of the second memory.
fn show_work(
    rt: &impl Print,
    work: &[u32],
    state: State,
    count: u32,
) -> io::Result<ControlFlow<(), State>> {
    let Some(shown) = work.get(..count as usize) else {
        return stop(rt, b"too large\n");
    };
    show(rt, shown, state)
}

// Makes the counted add, and writes the reply and the tally afterwards.
fn add(
    rt: &impl Print,
    table: &mut [u32],
    state: State,
    from: u32,
    to: u32,
    tick: u32,
) -> io::Result<ControlFlow<(), State>> {
    let counted = counted_adds::counted_by_value(table, state.tally, from, to, tick);
    output::print_counted(rt, replies::of_add(counted.answer), counted.tally)?;
    Ok(ControlFlow::Continue(state.with_tally(counted.tally)))
}

// Makes the counted removal with the words lent for work, and writes the reply and the tally afterwards.
fn remove(
    rt: &impl Print,
    table: &mut [u32],
    lent: &mut [u32],
    state: State,
    from: u32,
    to: u32,
    tick: u32,
) -> io::Result<ControlFlow<(), State>> {
    let removed = counted_removals::removed_by_value(table, lent, state.tally, from, to, tick);
    output::print_counted(rt, replies::of_done(removed.answer), removed.tally)?;
    Ok(ControlFlow::Continue(state.with_tally(removed.tally)))
}

// Asks the list, and writes the reply and each record afterwards.
fn ask(rt: &impl Print, table: &[u32], state: State) -> io::Result<ControlFlow<(), State>> {
    let count = state.count;
    let asked = question_lists::ask_first(table, state.records, count);
    output::print_reply(rt, replies::of_list(asked.answer))?;
    let records = asked.list;
    output::print_records(rt, &records[..count])?;
    Ok(ControlFlow::Continue(state.with_records(records)))
}

// Runs the command.
pub(crate) fn run(
    rt: &impl Print,
    memory: &mut [u32; State::MOST_TABLE],
    work: &mut [u32; State::MOST_TABLE],
    state: State,
    command: Command,
) -> io::Result<ControlFlow<(), State>> {
    let end = state.length;
    match command {
        Command::Table(length) => go_on(rt, state.with_length(length)),
        Command::Word(at, word) => put_word(rt, memory, state, at, word),
        Command::Open(animals, ticks, carry) => {
            open(rt, &mut memory[..end], state, animals, ticks, carry)
        }
        Command::Tally(tally) => Ok(ControlFlow::Continue(state.with_tally(tally))),
        Command::Add(from, to, tick) => add(rt, &mut memory[..end], state, from, to, tick),
        Command::Clear => Ok(ControlFlow::Continue(state.cleared())),
        Command::Record(record) => go_on(rt, state.with_record(record)),
        Command::Ask => ask(rt, &memory[..end], state),
        Command::Show => show(rt, &memory[..end], state),
        Command::Remove(from, to, tick, count) => {
            let Some(lent) = work.get_mut(..count as usize) else {
                return stop(rt, b"too large\n");
            };
            remove(rt, &mut memory[..end], lent, state, from, to, tick)
        }
        Command::WorkWord(at, word) => put_word(rt, work, state, at, word),
        Command::ShowWork(count) => show_work(rt, work, state, count),
        Command::Unknown => stop(rt, b"no such command\n"),
    }
}
