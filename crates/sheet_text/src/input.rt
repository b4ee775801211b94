// The words of the input: four bytes each, highest first.
ghost use Rattle.std.specs.Prelude.{◌≡◌, ◌+◌, ◌*◌, ◌%◌, ◌≤◌, length, drop, get_or};
ghost use Rattle.rules.specs.Sheet.{words_of};
ghost use Rattle.table_text.specs.Lines.{overwrite_front};

// The word of the four bytes from `at` on.
pub fn word_at(bytes: &[u8], at: usize) -> u32
    requires { at + 4 ≤ length bytes.now }
    ensures { result ≡ get_or (words_of (drop at bytes.now)) 0 0 }
{
    u32::from_be_bytes([bytes[at], bytes[at + 1], bytes[at + 2], bytes[at + 3]])
}

// Writes the words of the bytes to the front of `out`.
pub(crate) fn put_words(bytes: &[u8], out: &mut [u32])
    requires { (length bytes.now % 4 ≡ 0) × (length bytes.now ≤ 4 * length out.old) }
    ensures { out.new ≡ overwrite_front (words_of bytes.now) out.old }
{
    let count = bytes.len() / 4;
    for (i, word) in out[..count].iter_mut().enumerate() {
        *word = word_at(bytes, 4 * i);
    }
}
