// The lister's lines, put into a lent buffer: the first line, a refusal's, and those of a block. For the programs above.
#![tactic(auto)]

ghost use Rattle.std.specs.Prelude.{◌≡◌, ℕ, ◌+◌, ◌-◌, ◌*◌, ◌<◌, ◌≤◌, ◌++◌, length};
ghost use Rattle.lists.specs.Lists.{tab};
ghost use Rattle.digits.specs.Digits.{decimal_of};
ghost use Rattle.digits.specs.Text.{Added};
ghost use Rattle.answer.specs.Limits.{parts, line_room, pair_room, block_room};
ghost use Rattle.block.specs.Block.{blocks, row_gain};
ghost use Rattle.block.specs.Read.{bytes_from, word_at};
ghost use Rattle.block.specs.Kind.{left_out};
ghost use Rattle.table.specs.Release.{rules_of};
ghost use Rattle.lister_core.specs.Lines.{space, pair_line, head_line, refused_line, row_line};
ghost use Rattle.lister_core.specs.Lister.{block_lines_by};

use block::layout::Layout;
use block::word::word_at;
use digits::Text;
use rows::adding::last_gain;

fn put_pair(word: &[u8], n: u64, between: &[u8], m: u64, text: &mut Text)
    requires { text.old.len + (length word.now + length between.now + 41) ≤ length text.old.bytes.now }
    ensures { Added (pair_line word.now n between.now m) text.old text.new }
{
    text.put_text(word);
    text.put_number(n);
    text.put_text(between);
    text.put_number(m);
    text.put_text(b"\n");
}

// `bands B rows N`
pub fn put_head(bands: usize, rows: usize, text: &mut Text)
    requires { text.old.len + pair_room ≤ length text.old.bytes.now }
    ensures { Added (head_line bands rows) text.old text.new }
{
    put_pair(b"bands ", bands as u64, b" rows ", rows as u64, text);
}

// `refused NUMBER PLACE`
pub fn put_refused(number: u8, place: usize, text: &mut Text)
    requires { text.old.len + pair_room ≤ length text.old.bytes.now }
    ensures { Added (refused_line number place) text.old text.new }
{
    put_pair(b"refused ", number as u64, b" ", place as u64, text);
}

// A space and a gain, at most six bytes.
fn put_gain(gain: u16, text: &mut Text)
    requires { text.old.len + 6 ≤ length text.old.bytes.now }
    ensures text { Added (space ++ decimal_of gain) text.old text.new }
    ensures short { text.new.len ≤ text.old.len + 6 }
{
    text.put_text(b" ");
    text.put_number(gain as u64);
}

// Gain j of a row whose stored gains, as many as width, stand in a block from byte `first` on.
fn gain_in(block: &[u8], first: usize, width: usize, j: usize) -> u16
    requires { (length block.now ≡ 512) × (first + 2 * width ≤ 508) × (width ≤ 250) }
    ensures { result ≡ row_gain parts width (λ (i : ℕ). word_at (bytes_from block.now 0) (first + 2 * i)) 0 j }
{
    if j < width {
        return word_at(block, first + 2 * j) as u16;
    }
    last_gain(block, first, width)
}

// A row's line: its number, then its gains.
fn put_row(t: Layout, row: usize, block: &[u8], first: usize, text: &mut Text)
    requires { (row ≤ 65535) × (length block.now ≡ 512) × (first + 2 * (t.bands - left_out t.form) ≤ 508) × (text.old.len + line_room t.bands ≤ length text.old.bytes.now) }
    ensures text { Added (row_line row (tab (row_gain parts (t.bands - left_out t.form) (λ (i : ℕ). word_at (bytes_from block.now 0) (first + 2 * i)) 0) t.bands)) text.old text.new }
    ensures short { text.new.len ≤ text.old.len + line_room t.bands }
{
    let width = t.width();
    text.put_number(row as u64);
    for j in 0..t.bands {
        put_gain(gain_in(block, first, width, j), text);
    }
    text.put_text(b"\n");
}

// The lines of block k of a table.
pub fn put_block(t: Layout, k: usize, block: &[u8], text: &mut Text)
    requires { (k < blocks (t.bands - left_out t.form) t.rows) × (length block.now ≡ 512) × (text.old.len + block_room ≤ length text.old.bytes.now) }
    ensures { Added (block_lines_by (rules_of t.form) t.bands t.rows (bytes_from block.now 0) k) text.old text.new }
{
    let width = t.width();
    let start = k * t.per_block();
    for q in 0..t.held(k) {
        put_row(t, start + q, block, 8 + 2 * (q * width), text);
    }
}
