// The commands of the input: five words each, of four bytes, highest first.
use crate::state::unasked;
use rules::{Question, Tally};
use std::io;
use std::io::Read;

// A command and its numbers.
#[derive(Clone, Copy)]
pub enum Command {
    // The number of words that are the table.
    Table(u32),
    // A place of the first memory, and the word for it.
    Word(u32, u32),
    // How many animals, how many ticks, and the carry time.
    Open(u32, u32, u32),
    Tally(Tally),
    // From, to and the tick.
    Add(u32, u32, u32),
    Clear,
    Record(Question),
    Ask,
    Show,
    // From, to, the tick, and the number of words lent for work.
    Remove(u32, u32, u32, u32),
    // A place of the second memory, and the word for it.
    WorkWord(u32, u32),
    // The number of words of the second memory that are shown.
    ShowWork(u32),
    // Any that has another number.
    Unknown,
}

impl Command {
    // The bytes of a command.
    pub const BYTES: usize = 20;
}

// The command that the first word names, with the numbers behind it.
impl From<[u32; 5]> for Command {
    fn from(words: [u32; 5]) -> Command {
        let [which, a, b, c, d] = words;
        match which {
            1 => Command::Table(a),
            2 => Command::Word(a, b),
            3 => Command::Open(a, b, c),
            4 => Command::Tally(Tally {
                new: a,
                known: b,
                refused: c,
                removed: d,
            }),
            5 => Command::Add(a, b, c),
            6 => Command::Clear,
            7 => Command::Record(unasked(a, b, c, d)),
            8 => Command::Ask,
            9 => Command::Show,
            10 => Command::Remove(a, b, c, d),
            11 => Command::WorkWord(a, b),
            12 => Command::ShowWork(a),
            _ => Command::Unknown,
        }
    }
}

// What the input has next: a command, part of one, or nothing.
// It has three cases, so it is neither an `Option` nor a `Result`.
#[derive(Clone, Copy)]
pub enum Next {
    Whole(Command),
    CutShort,
    End,
}

// The command of the bytes.
fn command_of(bytes: &[u8; Command::BYTES]) -> Command {
    Command::from([
        sheet_text::word_at(bytes, 0),
        sheet_text::word_at(bytes, 4),
        sheet_text::word_at(bytes, 8),
        sheet_text::word_at(bytes, 12),
        sheet_text::word_at(bytes, 16),
    ])
}

// Reads the next command.
pub(crate) fn read_command(reader: &mut impl Read) -> io::Result<Next> {
    let mut bytes = [0u8; Command::BYTES];
    let n = filling::read_full(reader, &mut bytes)?;
    if n == 0 {
        return Ok(Next::End);
    }
    if n < Command::BYTES {
        return Ok(Next::CutShort);
    }
    Ok(Next::Whole(command_of(&bytes)))
}
