// sum.rs of rten-vecmath over one slice: five sums of finite floats, each an ordered fold that rounds every step once.
#![tactic(auto)]

ghost use Rattle.std.specs.Prelude.{true, ◌≡◌, Float};
ghost use Rattle.std.specs.Float.Ieee.Scale.{finite};
ghost use Rattle.floats.specs.Floats.{mul_add};
ghost use Rattle.sum.specs.declared.SumOp.TheVariants.{Sum};
ghost use Rattle.sum.specs.Sum.{step_of, sum_from, offset_ok, total_told, add_up_told};

mod exps;

use crate::exps::sum_exp_sub;
use answer::Refusal;
use answer::limits::ELEMENT_LIMIT;
use floats::bits::{abs_by_order, is_finite};
use floats::scan::first_unless_shown;

// The last two hold the offset that is taken from each element.
#[derive(Clone, Copy)]
pub enum SumOp {
    Sum,
    SumSquare,
    SumAbs,
    SumSquareSub(f32),
    SumExpSub(f32),
}

fn square_add(d: f32, sum: f32) -> f32
    ensures { result ≡ mul_add d d sum }
{
    d * d + sum
}

fn sum(held: f32, src: &[f32]) -> f32
    ensures { result ≡ sum_from Sum held src.now }
{
    src.iter().fold(held, |sum, x| sum + *x)
}

// The fold from a held sum on, a loop for each sum: none chooses inside. For the crates above.
pub fn sum_from(op: SumOp, held: f32, src: &[f32]) -> f32
    ensures { result ≡ sum_from op held src.now }
{
    match op {
        SumOp::Sum => sum(held, src),
        SumOp::SumSquare => src.iter().fold(held, |sum, x| square_add(*x, sum)),
        SumOp::SumAbs => src.iter().fold(held, |sum, x| sum + abs_by_order(*x)),
        SumOp::SumSquareSub(offset) => src.iter().fold(held, |sum, x| square_add(*x - offset, sum)),
        SumOp::SumExpSub(offset) => sum_exp_sub(offset, held, src),
    }
}

fn offset_ok(op: SumOp) -> bool
    ensures { result ≡ offset_ok op }
{
    match op {
        SumOp::SumSquareSub(offset) | SumOp::SumExpSub(offset) => is_finite(offset),
        _ => true,
    }
}

// A step that ends finite started from a finite sum and a finite element; but the exponential of minus infinity is finite.
fn shows_finite(op: SumOp) -> bool
    ensures { result ≡ true → (sum x : Float) → finite (step_of op sum x) ≡ true → (finite sum ≡ true) × (finite x ≡ true) }
{
    !matches!(op, SumOp::SumExpSub(_))
}

// The sum that `op` names, from +0; no search where the sum itself shows that all are finite.
pub fn add_up(op: SumOp, src: &[f32]) -> Result<f32, Refusal>
    ensures { total_told result ≡ add_up_told op src.now }
{
    if src.len() > ELEMENT_LIMIT {
        return Err(Refusal::TooMany);
    }
    if !offset_ok(op) {
        return Err(Refusal::NotFinite);
    }
    let sum = sum_from(op, 0.0, src);
    let shown = shows_finite(op) & is_finite(sum);
    match first_unless_shown(shown, src) {
        Some(bad) => Err(Refusal::Domain(bad)),
        None => Ok(sum),
    }
}
