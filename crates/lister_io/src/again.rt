// A table read a second time: judged at the first reading and shown at the second, each block judged again before its lines.
ghost use Rattle.std.specs.Prelude.{◌≡◌, ◌-◌, ◌<◌, length, Ok};
ghost use Rattle.std.specs.Result.{IfOk};
ghost use Rattle.answer.specs.Answer.{judged};
ghost use Rattle.block.specs.Block.{blocks};
ghost use Rattle.block.specs.Kind.{left_out};
ghost use Rattle.block.specs.Read.{bytes_from, block_tests_by};
ghost use Rattle.table.specs.Release.{rules_of};

use crate::listing::Listing;
use answer::Refusal;
use block::layout::Layout;
use judging::Judging;
use std::io;
use std::io::{Read, Seek, SeekFrom, Write};
use system::read_full;

// The next block, judged as block k of such a table; 9 where the reader has no whole one.
fn next_block<R: Read>(
    from: &mut R,
    j: Judging,
    k: usize,
    block: &mut [u8],
) -> Result<Layout, Refusal>
    requires { length block.old ≡ 512 }
    ensures judged { IfOk result (λ t. (t.form ≡ j.form) × (t.bands ≡ j.bands) × (t.rows ≡ j.rows)
        × (Ok tt ≡ judged (block_tests_by (rules_of j.form) j.bands j.rows (bytes_from block.new 0) k))) }
    ensures in_table { IfOk result (λ t. k < blocks (t.bands - left_out t.form) t.rows) }
{
    if read_full(from, block) != 512 {
        return Err(Refusal::StoredLength);
    }
    table::judge::block(block, k, j.form, j.bands, j.rows)?;
    Ok(Layout {
        form: j.form,
        bands: j.bands,
        rows: j.rows,
    })
}

// Block k did not pass this time: the one line of its refusal where nothing was written yet, else a line on standard error.
fn stopped<W: Write, E: Write>(
    why: Refusal,
    k: usize,
    listing: &mut Listing<'_, W, E>,
) -> io::Result<()> {
    if k == 0 {
        return listing.refuse(why);
    }
    listing
        .to
        .errors
        .write_all(b"lister: the file changed while it was read\n")
}

// Shows a table that is read again, up to the first block that does not pass this time or cannot be written.
fn show_again<R: Read, W: Write, E: Write>(
    from: &mut R,
    j: Judging,
    listing: &mut Listing<'_, W, E>,
) -> io::Result<()> {
    let mut block = [0u8; 512];
    for k in 0..j.want {
        match next_block(from, j, k, &mut block) {
            Ok(t) => listing.show_block(t, k, &block)?,
            Err(why) => return stopped(why, k, listing),
        }
    }
    Ok(())
}

// Shows a table of which the first reading was judged, by the second, from its beginning. What cannot go back there is read on, and judged as any
// second reading is.
pub fn list_again<S: Read + Seek, W: Write, E: Write>(
    j: Judging,
    second: &mut S,
    listing: &mut Listing<'_, W, E>,
) -> io::Result<()> {
    if let Err(why) = j.finish() {
        return listing.refuse(why);
    }
    let _ = second.seek(SeekFrom::Start(0));
    show_again(second, j, listing)
}
