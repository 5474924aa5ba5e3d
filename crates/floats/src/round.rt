// f32 to the nearest whole number, ties to the even one, by the same steps for every size up to 2^23, so that a loop over it runs in lanes.
ghost use Rattle.std.specs.Prelude.{◌≡◌, true};
ghost use Rattle.std.specs.Float.{binary32};
ghost use Rattle.std.specs.Float.Ieee.{le, neg};
ghost use Rattle.floats.specs.Floats.{abs_of, round_even};
ghost use Rattle.floats.specs.Values.{f32};

// 2^23: from here on every f32 is a whole number.
const WHOLE_FROM: f32 = 8388608.0;

// 3 * 2^22, halfway from 2^23 to 2^24.
const ROUNDING_MAGIC: f32 = 12582912.0;

// Up to a size of 2^22 the inner difference, 12582912 added to minus the size, lies from 2^23 to 2^24, where f32 has whole numbers only: it rounds
// to one. Past 2^22 it is exact; there the last bit counts halves, and a half goes to the even whole number. A whole number has it clear, and stays.
fn whole_size(size: f32) -> f32
    requires { (abs_of size ≡ size) × (le size (f32 0x4b00_0000) ≡ true) }
    ensures { result ≡ round_even binary32 size }
{
    let halves = f32::to_bits(ROUNDING_MAGIC - (ROUNDING_MAGIC - size));
    let even = halves + halves / 2 % 2;
    f32::from_bits(even - even % 2)
}

// The sign, taken off and put back, stays on a zero too.
fn within(x: f32) -> f32
    requires { (le x (f32 0x4b00_0000) ≡ true) × (le (neg (f32 0x4b00_0000)) x ≡ true) }
    ensures { result ≡ round_even binary32 x }
{
    let bits = f32::to_bits(x);
    let size = bits % 0x80000000;
    let whole = f32::to_bits(whole_size(f32::from_bits(size)));
    f32::from_bits(whole + (bits - size))
}

// A NaN fails the tests too, and stays.
pub fn round_ties_even(x: f32) -> f32
    ensures { result ≡ round_even binary32 x }
{
    if x <= WHOLE_FROM && x >= -WHOLE_FROM {
        within(x)
    } else {
        x
    }
}
