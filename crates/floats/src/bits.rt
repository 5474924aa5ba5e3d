// The sign and the range of an f32.
ghost use Rattle.std.specs.Prelude.{◌≡◌, false, from_bits, to_bits};
ghost use Rattle.std.specs.Float.{binary32, inf};
ghost use Rattle.std.specs.Float.Ieee.Scale.{finite};
ghost use Rattle.floats.specs.Floats.{abs_of};

// The least finite f32, Rust's `f32::MIN`.
pub const F32_MIN: f32 = -340282346638528859811704183484516925440.0;

// +infinity, by a clause that says so.
pub fn infinity() -> f32
    ensures { result ≡ inf false }
{
    f32::INFINITY
}

// Any pattern's value. Every NaN pattern is the one NaN.
pub fn from_pattern(n: u32) -> f32
    ensures { result ≡ from_bits binary32 n }
{
    if n % 0x80000000 > 0x7f800000 {
        f32::NAN
    } else {
        f32::from_bits(n)
    }
}

// A value's pattern, and 0x7fc00000 for a NaN.
pub fn pattern(x: f32) -> u32
    ensures { result ≡ to_bits binary32 x }
{
    if x.is_nan() { 0x7fc00000 } else { x.to_bits() }
}

// The pattern without its sign.
pub fn abs(x: f32) -> f32
    ensures { result ≡ abs_of x }
{
    if x.is_nan() {
        x
    } else {
        f32::from_bits(x.to_bits() % 0x80000000)
    }
}

// The same as the larger of x and 0 - x, +0 of the two zeros: for loops that run in lanes.
pub fn abs_by_order(x: f32) -> f32
    ensures { result ≡ abs_of x }
{
    let minus = 0.0 - x;
    if x > minus { x } else { minus }
}

pub fn is_finite(x: f32) -> bool
    ensures { result ≡ finite x }
{
    x < f32::INFINITY && x > -f32::INFINITY
}
