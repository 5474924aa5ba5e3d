// Stores a table, for any form and any number of stored gains per row. For the crates above.
ghost use Rattle.std.specs.Prelude.{◌≡◌, ◌+◌, ◌*◌, ◌≤◌, length};
ghost use Rattle.lists.specs.Lists.{Placed};
ghost use Rattle.block.specs.Block.{blocks, held_rows, table_bytes};
ghost use Rattle.block.specs.Asked.{Stores, Storable, own_word, run_byte};

use crate::counts::{blocks_of, held_in};
use crate::word::{put_word, sums};

// Number j of block k, which stores count of its rows' gains.
fn block_word(
    form: u16,
    width: usize,
    bands: usize,
    rows: usize,
    gains: &[u16],
    k: usize,
    count: usize,
    j: usize,
) -> u16
    requires { Storable width bands rows k gains.now × (count ≡ held_rows width rows k * width) }
    ensures { result ≡ own_word form width bands rows gains.now k j }
{
    if j == 0 {
        return form;
    }
    if j == 1 {
        return k as u16;
    }
    if j == 2 {
        return bands as u16;
    }
    if j == 3 {
        return rows as u16;
    }
    if j - 4 < count {
        let i = j - 4;
        return gains[i / width * bands + i % width];
    }
    0
}

// Block k of a table, at its place, from the gains of its own rows. (The four that tell the table are no Layout: this stores any form and width.)
pub fn write_block(
    form: u16,
    width: usize,
    bands: usize,
    rows: usize,
    gains: &[u16],
    k: usize,
    bytes: &mut [u8],
)
    requires { Storable width bands rows k gains.now × (512 * k + 512 ≤ length bytes.old) }
    ensures { Placed 0 bytes.old bytes.new (512 * k) (512 * k + 512) (run_byte (own_word form width bands rows gains.now k)) }
{
    let at = 512 * k;
    let count = held_in(width, rows, k) * width;
    for j in 0..254 {
        let w = block_word(form, width, bands, rows, gains, k, count, j);
        put_word(at + 2 * j, w, bytes);
    }
    let c = sums(&bytes[at..at + 512]);
    put_word(at + 508, c.a, bytes);
    put_word(at + 510, c.b, bytes);
}

pub fn write_all(
    form: u16,
    width: usize,
    bands: usize,
    rows: usize,
    gains: &[u16],
    bytes: &mut [u8],
)
    requires { Stores width bands rows × (length gains.now ≡ rows * bands) × (length bytes.old ≡ 512 * blocks width rows) }
    ensures { bytes.new ≡ table_bytes form width bands rows gains.now }
{
    let per = 250 / width;
    for k in 0..blocks_of(width, rows) {
        let from = k * per * bands;
        let to = from + held_in(width, rows, k) * bands;
        write_block(form, width, bands, rows, &gains[from..to], k, bytes);
    }
}
