// The gains of a table's rows, where the table was judged.
ghost use Rattle.std.specs.Prelude.{ℕ, ◌+◌, ◌-◌, ◌*◌, ◌/◌, ◌<◌, ◌≤◌, length};
ghost use Rattle.lists.specs.Lists.{Placed, Filled};
ghost use Rattle.answer.specs.Limits.{parts};
ghost use Rattle.block.specs.Block.{per_block, row_gain, given};
ghost use Rattle.block.specs.Read.{gain_at};
ghost use Rattle.block.specs.Kind.{left_out};

use crate::adding::last_gain;
use block::layout::Layout;
use block::word::word_at;

// The gains of one row, into those lent from `to` on.
fn copy_row(bytes: &[u8], t: Layout, row: usize, to: usize, gains: &mut [u16])
    requires room { to + t.bands ≤ length gains.old }
    requires there { 512 * (row / per_block (t.bands - left_out t.form)) + 512 ≤ length bytes.now }
    ensures { Placed 0 gains.old gains.new to (to + t.bands) (λ (i : ℕ). row_gain parts (t.bands - left_out t.form) (gain_at (t.bands - left_out t.form) bytes.now) row (i - to)) }
{
    let width = t.width();
    let per = t.per_block();
    let at = 512 * (row / per);
    let block = &bytes[at..at + 512];
    let first = 8 + 2 * (row % per * width);
    for j in 0..width {
        gains[to + j] = word_at(block, first + 2 * j) as u16;
    }
    if width < t.bands {
        gains[to + width] = last_gain(block, first, width);
    }
}

// The gains of n rows, from row `first` on.
pub fn copy_rows(bytes: &[u8], t: Layout, first: usize, n: usize, gains: &mut [u16])
    requires room { (n * t.bands ≤ length gains.old) × (first + n ≤ 65535) }
    requires there { (r : ℕ) → r < n → 512 * ((first + r) / per_block (t.bands - left_out t.form)) + 512 ≤ length bytes.now }
    ensures { Filled 0 gains.old gains.new (n * t.bands) (λ (i : ℕ). given parts (t.bands - left_out t.form) t.bands (gain_at (t.bands - left_out t.form) bytes.now) (first * t.bands + i)) }
{
    for r in 0..n {
        copy_row(bytes, t, first + r, r * t.bands, gains);
    }
}
