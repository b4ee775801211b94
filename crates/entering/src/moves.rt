// Rows of a cell move, and a new row takes the place of others.
ghost use Rattle.std.specs.Prelude.{◌≡◌, ◌+◌, ◌-◌, ◌≤◌, length, take};
ghost use Rattle.entering.specs.Rows.{padded, spliced};

// Puts w in the place of the rows from lo to hi - 1 of the n rows in use; the answer is how many rows are in use then.
pub(crate) fn replace(rows: &mut [u32], lo: usize, hi: usize, n: usize, w: u32) -> usize
    requires lo_le_hi { (lo ≤ hi) × (hi ≤ n) × (n ≤ length rows.old) × (lo + 1 + (n - hi) ≤ length rows.old) }
    requires rows_value { rows.old ≡ padded (length rows.old) (take n rows.old) }
    ensures count { result ≡ lo + 1 + (n - hi) }
    ensures rows_after { rows.new ≡ padded (length rows.old) (spliced (take n rows.old) lo hi w) }
{
    let end = lo + 1 + (n - hi);
    rows.copy_within(hi..n, lo + 1);
    rows[lo] = w;
    let freed = n.max(end);
    rows[end..freed].fill(words::unused_word());
    end
}
