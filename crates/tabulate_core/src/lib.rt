// A stored table from levels: the number of bands as a decimal word, rows of little-endian f32 levels, each split into gains.
#![tactic(auto)]

ghost use Rattle.std.specs.Prelude.{◌≡◌, ◌+◌, ◌*◌, ◌≤◌, ◌<◌, map, length, IfSome};
ghost use Rattle.answer.specs.Answer.{told_of, class_of, where_of};
ghost use Rattle.answer.specs.Limits.{band_limit};
ghost use Rattle.split.specs.Split.{split_told, split_out};
ghost use Rattle.tabulate_core.specs.Argument.{bands_named};
ghost use Rattle.tabulate_core.specs.Rows.{level_of};
ghost use Rattle.tabulate_core.specs.Stop.{stop_class, stop_where};
ghost use Rattle.tabulate_core.specs.Asked.{OfRow, Shaped, Split};
ghost use Rattle.table.specs.Release.{table_length};
ghost use Rattle.tabulate_core.specs.Tabulate.{tabulated_of, stored_told, stored_out, tabulate_told, tabulate_out};

use answer::limits::{BAND_LIMIT, GAIN_LIMIT};
use answer::{Answer, Refusal};
use block::counts::{blocks_of, shape_ok};
use floats::bits::from_pattern;
use lists::each::map_into;
use split::split;
use table::LEAST;

// Why no table is stored: refusals 7 and 9, and 4 and 5 of the first row that the split refuses, with a level's place through the rows.
#[derive(Clone, Copy)]
pub enum Stop {
    Count,
    StoredLength,
    Domain(usize),
    Masked(usize),
}

impl Stop {
    // Its number in the list (RULES, Numbers).
    pub fn number(self) -> u8
        ensures { result ≡ stop_class self }
    {
        match self {
            Stop::Domain(_) => 4,
            Stop::Masked(_) => 5,
            Stop::Count => 7,
            Stop::StoredLength => 9,
        }
    }

    // The level, for a masked row its first; 0 where the number has no place.
    pub fn place(self) -> usize
        ensures { result ≡ stop_where self }
    {
        match self {
            Stop::Domain(level) | Stop::Masked(level) => level,
            _ => 0,
        }
    }
}

// The bands that a word names: decimal digits only, from 1 to the most.
pub fn bands_in(word: &[u8]) -> Option<usize>
    ensures bands { result ≡ bands_named word.now }
    ensures within { IfSome result (λ b. (1 ≤ b) × (b ≤ band_limit)) }
{
    let mut v: usize = 0;
    for b in word {
        if !b.is_ascii_digit() {
            return None;
        }
        v = 10 * v + usize::from(*b - b'0');
        if v > BAND_LIMIT {
            return None;
        }
    }
    if v == 0 { None } else { Some(v) }
}

// The level of four bytes, the low one first.
fn level(bytes: [u8; 4]) -> f32
    ensures { result ≡ level_of bytes }
{
    from_pattern(u32::from_le_bytes(bytes))
}

// Splits a row of levels. The first slice lent is for the work.
fn split_by(row: &[[u8; 4]], levels: &mut [f32], gains: &mut [u16]) -> Answer
    requires { length row.now ≡ length levels.old }
    ensures told { told_of result ≡ split_told (map level_of row.now) gains.old }
    ensures written { gains.new ≡ split_out (map level_of row.now) gains.old }
{
    map_into(level, row, levels);
    split(levels, gains)
}

fn split_row(row: &[[u8; 4]], gains: &mut [u16]) -> Answer
    requires { length row.now ≤ band_limit }
    ensures told { told_of result ≡ split_told (map level_of row.now) gains.old }
    ensures written { gains.new ≡ split_out (map level_of row.now) gains.old }
{
    let mut levels = [0.0f32; BAND_LIMIT];
    split_by(row, &mut levels[..row.len()], gains)
}

// The refusal of a row whose first level is `first`.
fn in_row(first: usize, why: Refusal) -> Stop
    requires { OfRow why × (first + where_of why < 18446744073709551616) }
    ensures class { stop_class result ≡ class_of why }
    ensures place { stop_where result ≡ first + where_of why }
{
    match why {
        Refusal::Domain(level) => Stop::Domain(first + level),
        _ => Stop::Masked(first),
    }
}

// Splits the rows in order, up to the first that is refused. (By place: of the chunks that `chunks_exact_mut` lends a proof knows no element.)
fn split_rows(bands: usize, rows: usize, input: &[u8], gains: &mut [u16]) -> Result<(), Stop>
    requires shaped { Shaped bands rows input.now }
    requires gains_len { length gains.old ≡ rows * bands }
    ensures { Split bands rows input.now result gains.new }
{
    let (levels, _) = input.as_chunks::<4>();
    for row in 0..rows {
        let first = row * bands;
        let end = first + bands;
        if let Err(why) = split_row(&levels[first..end], &mut gains[first..end]) {
            return Err(in_row(first, why));
        }
    }
    Ok(())
}

// Splits all rows, then writes their table over the lent bytes. The gains lent are for the work.
fn store(
    bands: usize,
    rows: usize,
    input: &[u8],
    gains: &mut [u16],
    bytes: &mut [u8],
) -> Result<usize, Stop>
    requires shaped { Shaped bands rows input.now }
    requires gains_len { (length gains.old ≡ rows * bands) × (length bytes.old ≡ table_length bands rows) }
    ensures told { tabulated_of result ≡ stored_told bands rows input.now }
    ensures written { bytes.new ≡ stored_out bands rows input.now bytes.old }
{
    split_rows(bands, rows, input, gains)?;
    table::write(bands as u32, rows as u32, gains, bytes).unwrap();
    Ok(bytes.len())
}

// The table of the rows in the input, put at the start of the lent bytes, and its length; they stay as they were where it is refused.
pub fn tabulate(word: &[u8], input: &[u8], bytes: &mut [u8]) -> Result<usize, Stop>
    ensures told { tabulated_of result ≡ tabulate_told word.now input.now (length bytes.old) }
    ensures written { bytes.new ≡ tabulate_out word.now input.now bytes.old }
{
    let Some(bands) = bands_in(word) else {
        return Err(Stop::Count);
    };
    let rows = input.len().div_ceil(4 * bands);
    if !shape_ok(LEAST, bands, rows) {
        return Err(Stop::Count);
    }
    if input.len() != 4 * (rows * bands) {
        return Err(Stop::StoredLength);
    }
    let end = 512 * blocks_of(bands, rows);
    if bytes.len() < end {
        return Err(Stop::StoredLength);
    }
    let mut gains = [0u16; GAIN_LIMIT];
    store(
        bands,
        rows,
        input,
        &mut gains[..rows * bands],
        &mut bytes[..end],
    )
}
