// What is printed for the words of a log.
ghost use Rattle.std.specs.Prelude.{◌≡◌, true, false, cond, ◌≤◌, length, replicate};
ghost use Rattle.rules.specs.Layout.{table_length, animals, ticks};
ghost use Rattle.rules.specs.Reading.{is_log};
ghost use Rattle.rules.specs.Sheet.{most_table_words, is_beyond, log_text, too_large};
ghost use Rattle.table_text.specs.Lines.{overwrite_front};
ghost use Rattle.sheet_text.specs.Prints.{Prints};

use crate::Sheet;
use tables::{Opening, Table};

// Whether an opening word stands first, with larger limits than those of the sheet.
fn is_beyond(log: &[u32]) -> bool
    ensures { result ≡ is_beyond log.now }
{
    let Some(w) = log.first() else {
        return false;
    };
    words::is_opening(*w)
        && (words::animals_of(*w) > Sheet::MOST_ANIMALS || words::ticks_of(*w) > Sheet::MOST_TICKS)
}

// The number of words of the table for an opening word within the limits; where none stands first, no word.
fn table_size(log: &[u32]) -> usize
    requires { is_beyond log.now ≡ false }
    ensures upper_bound { result ≤ most_table_words }
    ensures value { is_log log.now ≡ true → result ≡ table_length (animals log.now) (ticks log.now) }
{
    let Some(w) = log.first() else {
        return 0;
    };
    if !words::is_opening(*w) {
        return 0;
    }
    Opening::of_word(*w).table_length()
}

// Reads the log into the table, and writes the table's text or the refusal's.
fn put_read(log: &[u32], table: &mut [u32], out: &mut [u8]) -> usize
    requires prints { Prints log.now table.old }
    requires log_in_bounds { length (log_text log.now) ≤ length out.old }
    ensures value { result ≡ length (log_text log.now) }
    ensures out_after { out.new ≡ overwrite_front (log_text log.now) out.old }
{
    match engine::read_log(log, table) {
        Ok(contacts) => table_text::put_table(&Table::of_valid(table), contacts, out),
        Err(refusal) => table_text::put_refused(u32::from(refusal), out),
    }
}

// The words of the largest table, all 0.
fn blank_table() -> [u32; Sheet::MOST_TABLE_WORDS]
    ensures { result ≡ replicate most_table_words 0 }
{
    [0; Sheet::MOST_TABLE_WORDS]
}

// Writes what is printed for the words of a log.
pub(crate) fn put_log(log: &[u32], out: &mut [u8]) -> usize
    requires { length (cond (is_beyond log.now) too_large (log_text log.now)) ≤ length out.old }
    ensures value { result ≡ length (cond (is_beyond log.now) too_large (log_text log.now)) }
    ensures out_after { out.new ≡ overwrite_front (cond (is_beyond log.now) too_large (log_text log.now)) out.old }
{
    if is_beyond(log) {
        return table_text::put_bytes(b"too large\n", out);
    }
    let mut table = blank_table();
    let size = table_size(log);
    put_read(log, &mut table[..size], out)
}
