// The limits (RULES, Numbers and Table), one line each, and the numbers that follow from them; specs/Limits.antt says what each is for.
pub const ELEMENT_LIMIT: usize = 16384;

pub const PARTS: usize = 32768;

pub const STEPS: f32 = 1073741824.0;

pub const BAND_LIMIT: usize = 64;

pub const ROW_LIMIT: usize = 1024;

// What follows.
pub const GAIN_LIMIT: usize = ROW_LIMIT * BAND_LIMIT;

pub const TABLE_LIMIT: usize = 512 * ((ROW_LIMIT + (250 / BAND_LIMIT - 1)) / (250 / BAND_LIMIT));

pub const LEVEL_LIMIT: usize = 4 * GAIN_LIMIT + 1;

pub const BLOCK_ROOM: usize = 18 * 250;
