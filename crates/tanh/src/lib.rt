// tanh.rs of rten-vecmath, one element at a time. For the crates above.
#![tactic(auto)]

ghost use Rattle.std.specs.Prelude.{◌≡◌, false};
ghost use Rattle.std.specs.Float.Ieee.{le};
ghost use Rattle.consts.specs.Consts.{tanh_tiny};
ghost use Rattle.tanh.specs.Tanh.{small_of, medium_of, size_of, tanh_of};

use consts::{TANH_CUTOFF, TANH_P1, TANH_P3, TANH_P5, TANH_P7, TANH_P9, TANH_SMALL, TANH_TINY};
use exp::exp_within;
use floats::bits::abs_by_order;

// A line for each step, as in exp's poly.
fn small(square: f32, size: f32) -> f32
    ensures { result ≡ small_of square size }
{
    let y = TANH_P9 * square + TANH_P7;
    let y = y * square + TANH_P5;
    let y = y * square + TANH_P3;
    let y = y * square + TANH_P1;
    y * size
}

fn medium(e: f32) -> f32
    ensures { result ≡ medium_of e }
{
    (e - 1.0) / (e + 1.0)
}

// The size of the result past TANH_TINY. Both forms are worked out before the choice, so that a loop over it has no branch.
fn chosen(x: f32, size: f32) -> f32
    ensures { le size tanh_tiny ≡ false → result ≡ size_of x size }
{
    let low = small(x * x, size);
    let high = medium(exp_within(size * 2.0));
    if size <= TANH_SMALL {
        low
    } else if size >= TANH_CUTOFF {
        1.0
    } else {
        high
    }
}

// Up to TANH_TINY the result is x itself, so a zero keeps its sign; past it the order against zero tells the sign.
pub fn tanh(x: f32) -> f32
    ensures { result ≡ tanh_of x }
{
    let size = abs_by_order(x);
    let y = chosen(x, size);
    if size <= TANH_TINY {
        x
    } else if x <= 0.0 {
        -y
    } else {
        y
    }
}
