// The text of a table, written to the front of a lent buffer.
#![tactic(auto)]

mod cell;

ghost use Rattle.std.specs.Prelude.{◌≡◌, [], ◌∷◌, ◌++◌, ◌+◌, ◌≤◌, ◌<◌, length};
ghost use Rattle.rules.specs.Logs.{held_contacts};
ghost use Rattle.rules.specs.Sheet.{decimal, first_line, table_text, refused_text};
ghost use Rattle.table_text.specs.Lines.{overwrite_front};

use tables::Table;

// The digit of a number below ten.
// A byte of the text, where `char::from_digit` would give a `char`.
fn digit(k: u32) -> u8
    requires { k < 10 }
    ensures { result ≡ 48 + k }
{
    48 + k as u8
}

// Writes the number in decimal.
pub fn put_number(k: u32, out: &mut [u8]) -> usize
    requires { length (decimal k) ≤ length out.old }
    ensures value { result ≡ length (decimal k) }
    ensures out_after { out.new ≡ overwrite_front (decimal k) out.old }
{
    if k < 10 {
        out[0] = digit(k);
        return 1;
    }
    let end = put_number(k / 10, out);
    out[end] = digit(k % 10);
    end + 1
}

// Writes the bytes of the text.
#[tactic(auto, unfolding(crate::specs::Lines::overwrite_front))]
pub fn put_bytes(text: &[u8], out: &mut [u8]) -> usize
    requires { length text.now ≤ length out.old }
    ensures value { result ≡ length text.now }
    ensures out_after { out.new ≡ overwrite_front text.now out.old }
{
    let count = text.len();
    out[..count].copy_from_slice(text);
    count
}

// Writes the number in decimal, and the byte behind it.
pub fn put_then(k: u32, byte: u8, out: &mut [u8]) -> usize
    requires { length (decimal k ++ (byte ∷ [])) ≤ length out.old }
    ensures value { result ≡ length (decimal k ++ (byte ∷ [])) }
    ensures out_after { out.new ≡ overwrite_front (decimal k ++ (byte ∷ [])) out.old }
{
    let end = put_number(k, out);
    out[end] = byte;
    end + 1
}

// Writes the first line: the number of animals, the number of ticks, the carry time and the number of contacts held.
fn put_first_line(n: u32, ticks: u32, carry: u32, held: u32, out: &mut [u8]) -> usize
    requires { length (first_line n ticks carry held) ≤ length out.old }
    ensures value { result ≡ length (first_line n ticks carry held) }
    ensures out_after { out.new ≡ overwrite_front (first_line n ticks carry held) out.old }
{
    let a = put_then(n, b' ', out);
    let b = a + put_then(ticks, b' ', &mut out[a..]);
    let d = b + put_then(carry, b' ', &mut out[b..]);
    d + put_then(held, b'\n', &mut out[d..])
}

// Writes the first line of the table, then one for each non-empty cell.
pub fn put_table(table: &Table, held: u32, out: &mut [u8]) -> usize
    requires held_value { held ≡ length (held_contacts table.now) }
    requires table_in_bounds { length (table_text table.now) ≤ length out.old }
    ensures value { result ≡ length (table_text table.now) }
    ensures out_after { out.new ≡ overwrite_front (table_text table.now) out.old }
{
    let opening = table.opening();
    let at = put_first_line(opening.animals, opening.ticks, opening.carry, held, out);
    at + cell::put_cells(table, &mut out[at..])
}

// Writes the line of a refusal.
pub fn put_refused(number: u32, out: &mut [u8]) -> usize
    requires { length (refused_text number) ≤ length out.old }
    ensures value { result ≡ length (refused_text number) }
    ensures out_after { out.new ≡ overwrite_front (refused_text number) out.old }
{
    let at = put_bytes(b"refused ", out);
    at + put_then(number, b'\n', &mut out[at..])
}
