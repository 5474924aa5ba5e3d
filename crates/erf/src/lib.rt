// erf.rs of rten-vecmath, one element at a time. For the crates above.
#![tactic(auto)]

ghost use Rattle.std.specs.Prelude.{◌≡◌};
ghost use Rattle.floats.specs.Floats.{abs_of};
ghost use Rattle.erf.specs.Erf.{ratio_of, poly_of, size_of, erf_of, gelu_of, approx_gelu_of};

use consts::{ERF_A0, ERF_A1, ERF_A2, ERF_A3, ERF_A4, ERF_P, GELU_CUBE, SQRT_2_PI, SQRT_2_RCP};
use exp::reduced_range_exp;
use floats::bits::abs_by_order;
use tanh::tanh;

fn ratio(size: f32) -> f32
    ensures { result ≡ ratio_of size }
{
    1.0 / (size * ERF_P + 1.0)
}

// A line for each step, as in exp's poly.
fn poly(t: f32) -> f32
    ensures { result ≡ poly_of t }
{
    let y = ERF_A4 * t + ERF_A3;
    let y = y * t + ERF_A2;
    let y = y * t + ERF_A1;
    let y = y * t + ERF_A0;
    y * t
}

// For x's size, whose square is x's: the exponential need not wait for the size. Minus a square is at most zero, as reduced_range_exp asks.
fn of_size(x: f32) -> f32
    ensures { result ≡ size_of (abs_of x) }
{
    1.0 - poly(ratio(abs_by_order(x))) * reduced_range_exp(-(x * x))
}

pub fn erf(x: f32) -> f32
    ensures { result ≡ erf_of x }
{
    let y = of_size(x);
    if x < 0.0 { -y } else { y }
}

pub fn gelu(x: f32) -> f32
    ensures { result ≡ gelu_of x }
{
    x * 0.5 * (erf(x * SQRT_2_RCP) + 1.0)
}

pub fn approx_gelu(x: f32) -> f32
    ensures { result ≡ approx_gelu_of x }
{
    let y = tanh((x * x * x * GELU_CUBE + x) * SQRT_2_PI);
    x * 0.5 * (y + 1.0)
}
