// The move of a table to a form.
ghost use Rattle.std.specs.Prelude.{◌≡◌, ◌+◌, ◌-◌, ◌*◌, ◌<◌, ◌≤◌, length};
ghost use Rattle.lists.specs.Lists.{Placed};
ghost use Rattle.answer.specs.Answer.{told_of};
ghost use Rattle.block.specs.Block.{blocks, table_byte, table_bytes};
ghost use Rattle.block.specs.Read.{bytes_from};
ghost use Rattle.block.specs.Kind.{left_out};
ghost use Rattle.table.specs.Release.{drop_in, table_gains};
ghost use Rattle.table.specs.Asked.{Known};
ghost use Rattle.moving.specs.Moving.{move_told, move_out};

use answer::{Answer, Refusal};
use block::form::Form;
use block::layout::Layout;
use block::store::write_block;
use lists::each::map_into;
use rows::copying::copy_rows;
use table::judge::table;

// Block k of the result, from a table of the same bands and rows; its rows' gains go through those lent.
fn move_block(from: Layout, to: Layout, k: usize, bytes: &[u8], gains: &mut [u16], res: &mut [u8])
    requires known { Known bytes.now (from.bands - left_out from.form) from.bands from.rows × (left_out from.form ≡ drop_in (bytes_from bytes.now 0)) }
    requires same { (to.bands ≡ from.bands) × (to.rows ≡ from.rows) }
    requires room { (k < blocks (to.bands - left_out to.form) to.rows) × (500 ≤ length gains.old) × (512 * k + 512 ≤ length res.old) }
    ensures { Placed 0 res.old res.new (512 * k) (512 * k + 512) (table_byte (1 + left_out to.form) (to.bands - left_out to.form) to.bands to.rows (table_gains bytes.now)) }
{
    copy_rows(bytes, from, k * to.per_block(), to.held(k), gains);
    let form = to.form.number() as u16;
    write_block(form, to.width(), to.bands, to.rows, gains, k, res);
}

fn move_all(from: Layout, to: Layout, bytes: &[u8], res: &mut [u8])
    requires known { Known bytes.now (from.bands - left_out from.form) from.bands from.rows × (left_out from.form ≡ drop_in (bytes_from bytes.now 0)) }
    requires same { (to.bands ≡ from.bands) × (to.rows ≡ from.rows) }
    requires room { length res.old ≡ 512 * blocks (to.bands - left_out to.form) to.rows }
    ensures { res.new ≡ table_bytes (1 + left_out to.form) (to.bands - left_out to.form) to.bands to.rows (table_gains bytes.now) }
{
    // The most gains of a block's rows: 250 stored ones, and one more of each row.
    let mut gains = [0u16; 500];
    for k in 0..to.blocks() {
        move_block(from, to, k, bytes, &mut gains, res);
    }
}

// Moves a table to this form, or copies it if it has that form.
pub fn to_form(form: Form, bytes: &[u8], res: &mut [u8]) -> Answer
    ensures told { told_of result ≡ move_told (left_out form) bytes.now res.old }
    ensures written { res.new ≡ move_out (left_out form) bytes.now res.old }
{
    let from = table(bytes)?;
    if from.bands <= form.left_out() {
        return Err(Refusal::OneBand);
    }
    let to = Layout {
        form,
        bands: from.bands,
        rows: from.rows,
    };
    if res.len() != to.length() {
        return Err(Refusal::StoredLength);
    }
    if from.form == form {
        // A slice's own copy needs `memmove` from outside.
        map_into(|x| x, bytes, res);
        return Ok(());
    }
    move_all(from, to, bytes, res);
    Ok(())
}
