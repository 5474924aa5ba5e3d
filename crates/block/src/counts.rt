// How many: bands and rows within their limits, blocks of a table, rows of a block. For the crates above.
ghost use Rattle.std.specs.Prelude.{◌≡◌, ◌<◌};
ghost use Rattle.answer.specs.Limits.{band_limit, row_limit};
ghost use Rattle.block.specs.Block.{blocks, held_rows};
ghost use Rattle.block.specs.Write.{within};
ghost use Rattle.block.specs.Asked.{Fits};

use answer::limits::{BAND_LIMIT, ROW_LIMIT};

// Bands and rows within their limits; least is the form's.
pub fn shape_ok(least: usize, bands: usize, rows: usize) -> bool
    ensures { result ≡ within least band_limit row_limit bands rows }
{
    if bands < least {
        return false;
    }
    if BAND_LIMIT < bands {
        return false;
    }
    if rows < 1 {
        return false;
    }
    if ROW_LIMIT < rows {
        return false;
    }
    true
}

// This and held_in take any rows that fit blocks, as docs/PROMISES.md has it; `Layout` has both as methods.
pub fn blocks_of(width: usize, rows: usize) -> usize
    requires { Fits width rows }
    ensures { result ≡ blocks width rows }
{
    let per = 250 / width;
    (rows + (per - 1)) / per
}

pub fn held_in(width: usize, rows: usize, k: usize) -> usize
    requires { Fits width rows × (k < blocks width rows) }
    ensures { result ≡ held_rows width rows k }
{
    let per = 250 / width;
    let left = rows - per * k;
    if per < left { per } else { left }
}
