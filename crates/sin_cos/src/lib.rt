// sin_cos.rs below 48,000 in size, one element at a time. Every function is total.
#![tactic(auto)]

ghost use Rattle.std.specs.Prelude.{◌≡◌};
ghost use Rattle.sin_cos.specs.SinCos.{min_of, max_of, reduced_of, fold_of, ratio_of, sin_of, cos_of};

use consts::{
    HALF_PI, INV_2_PI, MINUS_PI, PI, SIN_A3, SIN_A5, SIN_B2, SIN_B4, TWO_PI_HI, TWO_PI_LO,
};
use floats::round::round_ties_even;

// Not std's min and max, which pass over a NaN and may give either of two zeros.
fn min(a: f32, b: f32) -> f32
    ensures { result ≡ min_of a b }
{
    if a < b { a } else { b }
}

fn max(a: f32, b: f32) -> f32
    ensures { result ≡ max_of a b }
{
    if b < a { a } else { b }
}

// x less its whole turns. The turn is in two parts, so that less of it is lost than one f32 would lose.
fn reduced(x: f32) -> f32
    ensures { result ≡ reduced_of x }
{
    let k = round_ties_even(x * INV_2_PI);
    let x_rr = x - k * TWO_PI_HI;
    x_rr - k * TWO_PI_LO
}

// The sine of x is that of pi - x and of -pi - x.
fn folded(x: f32) -> f32
    ensures { result ≡ fold_of x }
{
    let x_rr = min(x, PI - x);
    let x_rr = max(x_rr, MINUS_PI - x_rr);
    min(x_rr, PI - x_rr)
}

// The sine by a rational approximation.
fn ratio(x: f32) -> f32
    ensures { result ≡ ratio_of x }
{
    let x_sq = x * x;
    let p = x_sq * SIN_A5 + SIN_A3;
    let p = x_sq * p + 1.0;
    let p = p * x;
    let q = x_sq * SIN_B4 + SIN_B2;
    let q = x_sq * q + 1.0;
    p / q
}

pub fn sin(x: f32) -> f32
    ensures { result ≡ sin_of x }
{
    ratio(folded(reduced(x)))
}

// The cosine of x is the sine of pi / 2 - x.
pub fn cos(x: f32) -> f32
    ensures { result ≡ cos_of x }
{
    ratio(folded(HALF_PI - reduced(x)))
}
