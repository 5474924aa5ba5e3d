// exp.rs of rten-vecmath, one element at a time. For the crates above.
#![tactic(auto)]

ghost use Rattle.std.specs.Prelude.{false, cond, ◌≡◌};
ghost use Rattle.std.specs.Float.Ieee.{lt, le};
ghost use Rattle.floats.specs.Values.{zero_f};
ghost use Rattle.consts.specs.Consts.{exp_underflow, exp_overflow};
ghost use Rattle.exp.specs.Exp.{ia_of, rest_of, poly_of, scale_of, exp_of, reduced_range_exp_of, sigmoid_of, silu_of, swish_of, elu_of};

use consts::{
    EXP_LOWER_CUTOFF, EXP_OVERFLOW, EXP_POLY_0, EXP_POLY_1, EXP_POLY_2, EXP_POLY_3, EXP_POLY_4,
    EXP_POLY_5, EXP_POLY_6, EXP_UNDERFLOW, INV_LOG2, LOG2_HI, LOG2_LO, ROUNDING_MAGIC,
};

fn rest(x: f32, j: f32) -> f32
    ensures { result ≡ rest_of x j }
{
    j * LOG2_LO + (j * LOG2_HI + x)
}

// A line for each step of the Rust's: as a fold over the coefficients their order would not show.
fn poly(r: f32) -> f32
    ensures { result ≡ poly_of r }
{
    let t = EXP_POLY_6 * r + EXP_POLY_5;
    let t = t * r + EXP_POLY_4;
    let t = t * r + EXP_POLY_3;
    let t = t * r + EXP_POLY_2;
    let t = t * r + EXP_POLY_1;
    t * r + EXP_POLY_0
}

fn ia(k: u32) -> u32
    ensures { result ≡ ia_of k }
{
    if 0 < k && k < 0x80000000 {
        0
    } else {
        0x83000000
    }
}

// p times 2 to the k, k an i32 as a word.
fn scale(p: f32, k: u32) -> f32
    ensures { result ≡ scale_of p k }
{
    let a = ia(k);
    let s = f32::from_bits(a.wrapping_add(0x7f000000));
    let t = f32::from_bits((k << 23).wrapping_sub(a));
    p * s * t
}

// x, but the least in place of a NaN or of what lies below it.
fn at_least(least: f32, x: f32) -> f32
    ensures { result ≡ cond (le least x) x least }
{
    if x >= least { x } else { least }
}

// For x between the two ends, or a NaN; past them it is worked out too, and no exponential. Between them x times INV_LOG2 plus the magic
// number is a whole number whose pattern counts it, so k is a difference of words. A NaN has no pattern to read: k is then that of the
// lower end, and the NaN comes back by `rest`.
pub fn exp_within(x: f32) -> f32
    ensures { le x exp_underflow ≡ false → le exp_overflow x ≡ false → result ≡ exp_of x }
{
    let s = at_least(EXP_UNDERFLOW, x) * INV_LOG2 + ROUNDING_MAGIC;
    let k = s.to_bits().wrapping_sub(0x4b400000);
    scale(poly(rest(x, s - ROUNDING_MAGIC)), k)
}

pub fn exp(x: f32) -> f32
    ensures { result ≡ exp_of x }
{
    if x <= EXP_UNDERFLOW {
        0.0
    } else if x >= EXP_OVERFLOW {
        f32::INFINITY
    } else {
        exp_within(x)
    }
}

// For x at most zero, minus infinity among it, or a NaN.
pub fn reduced_range_exp(x: f32) -> f32
    requires { lt zero_f x ≡ false }
    ensures { result ≡ reduced_range_exp_of x }
{
    if x < EXP_LOWER_CUTOFF {
        return 0.0;
    }
    let s = at_least(EXP_LOWER_CUTOFF, x) * INV_LOG2 + ROUNDING_MAGIC;
    let k = s.to_bits().wrapping_sub(0x4b400000);
    poly(rest(x, s - ROUNDING_MAGIC)) * f32::from_bits(k.wrapping_add(127) << 23)
}

pub fn sigmoid(x: f32) -> f32
    ensures { result ≡ sigmoid_of x }
{
    1.0 / (1.0 + exp(-x))
}

pub fn silu(x: f32) -> f32
    ensures { result ≡ silu_of x }
{
    x / (1.0 + exp(-x))
}

pub fn swish(alpha: f32, x: f32) -> f32
    ensures { result ≡ swish_of alpha x }
{
    x * sigmoid(x * alpha)
}

pub fn elu(alpha: f32, x: f32) -> f32
    ensures { result ≡ elu_of alpha x }
{
    if x >= 0.0 { x } else { alpha * (exp(x) - 1.0) }
}
