// What the programs over `tabulate_core` share: levels from a reader, the table to standard output, and the line of a refusal to a writer of its own.
#![tactic(auto)]

ghost use Rattle.std.specs.Prelude.{◌≤◌, length};

use answer::limits::{LEVEL_LIMIT, TABLE_LIMIT};
use digits::Text;
use lister_core::put_refused;
use output::put;
use std::io::{Read, Write};
use system::{Streams, read_in};
use tabulate_core::{Stop, bands_in, tabulate};

fn show_stop<V: Write>(stop: Stop, refusals: &mut V) {
    let mut room = [0u8; 64];
    let mut line = Text::new(&mut room);
    put_refused(stop.number(), stop.place(), &mut line);
    let _ = refusals.write_all(line.as_bytes());
}

// The bytes read; none where the word names no bands, so that its refusal is told at once.
fn read_levels<'a, R: Read>(from: &mut R, word: &[u8], input: &'a mut [u8]) -> &'a [u8]
    ensures { length result.now ≤ length input.old }
{
    if bands_in(word).is_none() {
        return &[];
    }
    read_in(from, input)
}

// The table of the levels read, with the number of bands that the word names, on standard output; a refusal's line on `refusals`, and after a word
// that names no bands how the program is called on standard error.
pub fn run<R: Read, V: Write, W: Write, E: Write>(
    from: &mut R,
    word: &[u8],
    refusals: &mut V,
    to: &mut Streams<W, E>,
) {
    // An input's first LEVEL_LIMIT bytes decide (tabulate_core/proofs/Start.antt).
    let mut input = [0u8; LEVEL_LIMIT];
    // Room for the largest table.
    let mut table = [0u8; TABLE_LIMIT];
    let levels = read_levels(from, word, &mut input);
    match tabulate(word, levels, &mut table) {
        Ok(length) => {
            let _ = put(&table[..length], b"tabulate: standard output", to);
        }
        Err(stop) => {
            show_stop(stop, refusals);
            if bands_in(word).is_none() {
                let _ = to.errors.write_all(
                    b"usage: tabulate BANDS <LEVELS >TABLE, with 1 to 64 bands, and 1 to 1,024 rows of little-endian f32 levels\n",
                );
            }
        }
    }
}
