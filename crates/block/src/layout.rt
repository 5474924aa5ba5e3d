// A table's form, bands and rows, and what follows from them. For the crates above.
ghost use Rattle.std.specs.Prelude.{◌≡◌, ◌+◌, ◌-◌, ◌*◌, ◌<◌, true, false, MatchOption};
ghost use Rattle.answer.specs.Limits.{band_limit, row_limit};
ghost use Rattle.block.specs.Block.{per_block, blocks, held_rows};
ghost use Rattle.block.specs.Write.{within};
ghost use Rattle.block.specs.Asked.{Stores};
ghost use Rattle.block.specs.Kind.{left_out};

use crate::counts::{blocks_of, held_in, shape_ok};
use crate::form::Form;

// Its rows fit blocks.
#[derive(Clone, Copy)]
pub struct Layout {
    pub form: Form,
    pub bands: usize,
    pub rows: usize,
    ghost stores: { Stores (bands - left_out form) bands rows },
}

impl Layout {
    // None where bands or rows lie outside the form's limits.
    pub fn new(form: Form, bands: usize, rows: usize) -> Option<Layout>
        ensures { MatchOption result (within (1 + left_out form) band_limit row_limit bands rows ≡ false) (λ l. (within (1 + left_out form) band_limit row_limit bands rows ≡ true) × (l.form ≡ form) × (l.bands ≡ bands) × (l.rows ≡ rows)) }
    {
        if !shape_ok(form.number(), bands, rows) {
            return None;
        }
        Some(Layout { form, bands, rows })
    }

    // The stored gains of a row.
    pub fn width(self) -> usize
        ensures { result ≡ self.bands - left_out self.form }
    {
        self.bands - self.form.left_out()
    }

    // The rows of a full block.
    pub fn per_block(self) -> usize
        ensures { result ≡ per_block (self.bands - left_out self.form) }
    {
        250 / self.width()
    }

    pub fn blocks(self) -> usize
        ensures { result ≡ blocks (self.bands - left_out self.form) self.rows }
    {
        blocks_of(self.width(), self.rows)
    }

    // The rows of block k.
    pub fn held(self, k: usize) -> usize
        requires { k < blocks (self.bands - left_out self.form) self.rows }
        ensures { result ≡ held_rows (self.bands - left_out self.form) self.rows k }
    {
        held_in(self.width(), self.rows, k)
    }

    // The bytes of the table.
    pub fn length(self) -> usize
        ensures { result ≡ 512 * blocks (self.bands - left_out self.form) self.rows }
    {
        512 * self.blocks()
    }
}
