// Rows that add up, in a list of gains and in a block's bytes, and the last gain of a row that does not store it.
ghost use Rattle.std.specs.Prelude.{◌≡◌, ℕ, Bool, ◌+◌, ◌-◌, ◌*◌, ◌<◌, ◌≤◌, length};
ghost use Rattle.lists.specs.Lists.{sum_to};
ghost use Rattle.lists.specs.Search.{found_not};
ghost use Rattle.answer.specs.Limits.{parts};
ghost use Rattle.block.specs.Block.{given};
ghost use Rattle.block.specs.Write.{row_ok, gain_of};
ghost use Rattle.block.specs.Read.{bytes_from, word_at, gain_in};
ghost use Rattle.block.specs.Asked.{row_stored};
ghost use Rattle.block.specs.Kind.{left_out};

use answer::limits::PARTS;
use block::form::Form;
use block::word::word_at;

fn row_sum(row: &[u16]) -> usize
    requires { length row.now ≤ 250 }
    ensures { result ≡ sum_to (gain_of row.now) (length row.now) }
{
    let mut sum: usize = 0;
    for gain in row {
        sum += *gain as usize;
    }
    sum
}

// The first row that does not add up, if there is one.
pub fn bad_row(gains: &[u16], bands: usize, rows: usize) -> Option<usize>
    requires { (length gains.now ≡ rows * bands) × (bands ≤ 250) }
    ensures { result ≡ found_not (row_ok parts (gain_of gains.now) bands) rows }
{
    for r in 0..rows {
        if row_sum(&gains[r * bands..r * bands + bands]) != PARTS {
            return Some(r);
        }
    }
    None
}

// The sum of the n stored gains that stand in a block from byte first on.
fn stored_sum(block: &[u8], first: usize, n: usize) -> usize
    requires { (first + 2 * n ≤ length block.now) × (n ≤ 250) }
    ensures { result ≡ sum_to (λ (j : ℕ). word_at (bytes_from block.now 0) (first + 2 * j)) n }
{
    let mut sum: usize = 0;
    for j in 0..n {
        sum += word_at(block, first + 2 * j);
    }
    sum
}

// The first of n rows of a block whose stored gains, as many as width, have a sum that does not pass, if there is one. (The test tells p.)
fn first_failing_row<F: Fn(usize) -> bool>(
    passes: F,
    block: &[u8],
    width: usize,
    n: usize,
) -> Option<usize>
    requires room { (8 + 2 * (n * width) ≤ length block.now) × (width ≤ 250) }
    requires callable { (x : ℕ) → F.pre passes x }
    ensures { (p : ℕ → Bool) → ((x : ℕ) (b : Bool) → F.post passes x b → b ≡ p x) → result ≡ found_not (λ r. p (row_stored (gain_in (bytes_from block.now 0)) width r)) n }
{
    for r in 0..n {
        if !passes(stored_sum(block, 8 + 2 * (r * width), width)) {
            return Some(r);
        }
    }
    None
}

// The first of n rows of a block that does not add up, if there is one. The form is asked once, not at each row.
pub fn bad_row_at(block: &[u8], form: Form, bands: usize, n: usize) -> Option<usize>
    requires { (8 + 2 * (n * (bands - left_out form)) ≤ length block.now) × (left_out form < bands) × (bands ≤ 250) }
    ensures { result ≡ found_not (row_ok parts (given parts (bands - left_out form) bands (gain_in (bytes_from block.now 0))) bands) n }
{
    match form {
        Form::One => first_failing_row(|sum| sum == PARTS, block, bands, n),
        Form::Two => first_failing_row(|sum| sum <= PARTS, block, bands - 1, n),
    }
}

// What the n stored gains of a row, which stand in a block from byte first on, leave for its last one; 0 where they pass the whole.
pub fn last_gain(block: &[u8], first: usize, n: usize) -> u16
    requires { (512 ≤ length block.now) × (first + 2 * n ≤ 508) × (n ≤ 250) }
    ensures { result ≡ parts - sum_to (λ (j : ℕ). word_at (bytes_from block.now 0) (first + 2 * j)) n }
{
    PARTS.saturating_sub(stored_sum(block, first, n)) as u16
}
