// The stored table. On a refusal the lent bytes, gains and numbers stay.
ghost use Rattle.std.specs.Prelude.{◌≡◌};
ghost use Rattle.pack.specs.Pack.{packed, when_zero};
ghost use Rattle.table.specs.Release.{write_told, write_out, block_told, read_told, read_out};
ghost use Rattle.moving.specs.Moving.{move_told, move_out};

use pack::pack;

#[unsafe(no_mangle)]
pub extern "C" fn mst_table_write(bands: u32, rows: u32, gains: &[u16], bytes: &mut [u8]) -> u64
    ensures told { result ≡ packed (write_told bands rows gains.now bytes.old) }
    ensures written { bytes.new ≡ write_out bands rows gains.now bytes.old }
{
    pack(table::write(bands, rows, gains, bytes))
}

#[unsafe(no_mangle)]
pub extern "C" fn mst_table_read(
    bytes: &[u8],
    gains: &mut [u16],
    bands: &mut u32,
    rows: &mut u32,
) -> u64
    ensures told { result ≡ packed ((read_told bytes.now gains.old).0, (read_told bytes.now gains.old).1) }
    ensures written { gains.new ≡ read_out bytes.now gains.old }
    ensures bands { bands.new
        ≡ when_zero (read_told bytes.now gains.old).0 (read_told bytes.now gains.old).2 bands.old }
    ensures rows { rows.new
        ≡ when_zero (read_told bytes.now gains.old).0 (read_told bytes.now gains.old).3 rows.old }
{
    match table::read(bytes, gains) {
        Ok(shape) => {
            *bands = shape.bands;
            *rows = shape.rows;
            0
        }
        Err(why) => pack(Err(why)),
    }
}

#[unsafe(no_mangle)]
pub extern "C" fn mst_table_read_block(
    number: u32,
    bytes: &[u8],
    form: &mut u32,
    bands: &mut u32,
    rows: &mut u32,
    held: &mut u32,
) -> u64
    ensures told { result ≡ packed ((block_told number bytes.now).0, (block_told number bytes.now).1) }
    ensures form { form.new ≡ when_zero (block_told number bytes.now).0 (block_told number bytes.now).2 form.old }
    ensures bands { bands.new ≡ when_zero (block_told number bytes.now).0 (block_told number bytes.now).4 bands.old }
    ensures rows { rows.new ≡ when_zero (block_told number bytes.now).0 (block_told number bytes.now).5 rows.old }
    ensures held { held.new ≡ when_zero (block_told number bytes.now).0 (block_told number bytes.now).6 held.old }
{
    match table::read_block(number, bytes) {
        Ok(header) => {
            *form = header.form;
            *bands = header.bands;
            *rows = header.rows;
            *held = header.held;
            0
        }
        Err(why) => pack(Err(why)),
    }
}

#[unsafe(no_mangle)]
pub extern "C" fn mst_table_to_form_1(bytes: &[u8], res: &mut [u8]) -> u64
    ensures told { result ≡ packed (move_told 0 bytes.now res.old) }
    ensures written { res.new ≡ move_out 0 bytes.now res.old }
{
    pack(moving::to_form_1(bytes, res))
}

#[unsafe(no_mangle)]
pub extern "C" fn mst_table_to_form_2(bytes: &[u8], res: &mut [u8]) -> u64
    ensures told { result ≡ packed (move_told 1 bytes.now res.old) }
    ensures written { res.new ≡ move_out 1 bytes.now res.old }
{
    pack(moving::to_form_2(bytes, res))
}
