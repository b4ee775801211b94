// What the printing program prints for the bytes of its input.
#![tactic(auto)]

mod input;
mod print;

ghost use Rattle.std.specs.Prelude.{◌≡◌, ◌≤◌, length, replicate};
ghost use Rattle.rules.specs.Sheet.{most_words, most_text, sheet_text};
ghost use Rattle.table_text.specs.Lines.{overwrite_front};

pub use input::word_at;

// A text and its length; behind it the bytes are 0.
// An array with a length beside it, since memory is fixed.
#[derive(Clone, Copy)]
pub struct Sheet {
    pub text: [u8; Sheet::MOST_TEXT],
    pub length: usize,
}

impl Sheet {
    // The words of the largest log.
    pub const MOST_WORDS: usize = 4096;

    // Its bytes.
    pub const MOST_BYTES: usize = 4 * Sheet::MOST_WORDS;

    // The animals of the largest table.
    pub const MOST_ANIMALS: u32 = 8;

    // Its ticks.
    pub const MOST_TICKS: u32 = 64;

    // Its words.
    pub const MOST_TABLE_WORDS: usize = Sheet::MOST_ANIMALS as usize
        * Sheet::MOST_ANIMALS as usize
        * (Sheet::MOST_TICKS as usize + 1)
        + 1;

    // The bytes of a text.
    pub const MOST_TEXT: usize = 32768;
}

// The bytes of an empty text.
fn blank_text() -> [u8; Sheet::MOST_TEXT]
    ensures { result ≡ replicate most_text 0 }
{
    [0; Sheet::MOST_TEXT]
}

// Room for the words of the largest log.
fn blank_log() -> [u32; Sheet::MOST_WORDS]
    ensures { most_words ≡ length result }
{
    [0; Sheet::MOST_WORDS]
}

// Writes what is printed for the bytes to the front of `out`.
fn put_sheet(bytes: &[u8], out: &mut [u8]) -> usize
    requires { length (sheet_text bytes.now) ≤ length out.old }
    ensures value { result ≡ length (sheet_text bytes.now) }
    ensures out_after { out.new ≡ overwrite_front (sheet_text bytes.now) out.old }
{
    if bytes.len() > Sheet::MOST_BYTES {
        return table_text::put_bytes(b"too large\n", out);
    }
    if bytes.len() % 4 != 0 {
        return table_text::put_bytes(b"not whole words\n", out);
    }
    let mut words = blank_log();
    input::put_words(bytes, &mut words);
    let count = bytes.len() / 4;
    print::put_log(&words[..count], out)
}

// The text that is printed for the bytes.
pub fn sheet_text(bytes: &[u8]) -> Sheet
    ensures length_value { result.length ≡ length (sheet_text bytes.now) }
    ensures text_value { result.text ≡ overwrite_front (sheet_text bytes.now) (replicate most_text 0) }
{
    let mut text = blank_text();
    let length = put_sheet(bytes, &mut text);
    Sheet { text, length }
}
