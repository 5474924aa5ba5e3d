// The operator as a value, and the call that runs it over a slice.
#![tactic(auto)]

ghost use Rattle.std.specs.Prelude.{◌≡◌, true, map, length};
ghost use Rattle.std.specs.List.{All};
ghost use Rattle.answer.specs.Answer.{told_of};
ghost use Rattle.lists.specs.Search.{found_not};
ghost use Rattle.unary.specs.Unary.{eval_of, also_in, in_domain, alpha_ok, inside_at, apply_told, apply_out};
ghost use Rattle.unary.specs.declared.Op.TheVariants.{ReducedRangeExp, Sin};

use answer::limits::ELEMENT_LIMIT;
use answer::{Answer, Refusal};
use consts::LARGE_THRESHOLD;
use floats::bits::{abs_by_order, is_finite};
use floats::scan::first_not_finite;
use lists::each::map_into;
use lists::search::first_failing;

#[derive(Clone, Copy)]
pub enum Op {
    Exp,
    ReducedRangeExp,
    Sigmoid,
    Silu,
    Swish(f32),
    Elu(f32),
    Tanh,
    Erf,
    Gelu,
    ApproxGelu,
    Sin,
    Cos,
}

fn also_in(op: Op, x: f32) -> bool
    ensures { result ≡ also_in op x }
{
    match op {
        Op::ReducedRangeExp => x <= 0.0,
        Op::Sin | Op::Cos => abs_by_order(x) < LARGE_THRESHOLD,
        _ => true,
    }
}

// For the crates above.
pub fn in_domain(op: Op, x: f32) -> bool
    ensures { result ≡ in_domain op x }
{
    is_finite(x) && also_in(op, x)
}

// For the crates above.
fn alpha_ok(op: Op) -> bool
    ensures { result ≡ alpha_ok op }
{
    match op {
        Op::Swish(alpha) | Op::Elu(alpha) => is_finite(alpha),
        _ => true,
    }
}

// The operator at one element of its domain, as `fill` has it over slices. For the crates above.
pub fn eval(op: Op, x: f32) -> f32
    requires { in_domain op x ≡ true }
    ensures { result ≡ eval_of op x }
{
    match op {
        Op::Exp => exp::exp(x),
        Op::ReducedRangeExp => exp::reduced_range_exp(x),
        Op::Sigmoid => exp::sigmoid(x),
        Op::Silu => exp::silu(x),
        Op::Swish(alpha) => exp::swish(alpha, x),
        Op::Elu(alpha) => exp::elu(alpha, x),
        Op::Tanh => tanh::tanh(x),
        Op::Erf => erf::erf(x),
        Op::Gelu => erf::gelu(x),
        Op::ApproxGelu => erf::approx_gelu(x),
        Op::Sin => sin_cos::sin(x),
        Op::Cos => sin_cos::cos(x),
    }
}

// The domain of ReducedRangeExp, from the least f32 to zero, by two tests: unlike in_domain's, a look by them runs in lanes.
fn from_least_to_zero(x: f32) -> bool
    ensures { result ≡ in_domain ReducedRangeExp x }
{
    x <= 0.0 && x >= f32::MIN
}

// Cos has it too.
fn in_sin_domain(x: f32) -> bool
    ensures { result ≡ in_domain Sin x }
{
    in_domain(Op::Sin, x)
}

// The place of the first element outside the domain, if there is one.
fn first_outside(op: Op, src: &[f32]) -> Option<usize>
    ensures { result ≡ found_not (inside_at op src.now) (length src.now) }
{
    match op {
        Op::ReducedRangeExp => first_failing(from_least_to_zero, src),
        Op::Sin | Op::Cos => first_failing(in_sin_domain, src),
        _ => first_not_finite(src),
    }
}

// The operator is chosen once, outside the loop, so that each loop runs in lanes.
fn fill(op: Op, src: &[f32], dst: &mut [f32])
    requires same { length src.now ≡ length dst.old }
    requires inside { All (λ x. in_domain op x ≡ true) src.now }
    ensures { dst.new ≡ map (eval_of op) src.now }
{
    match op {
        Op::Exp => map_into(exp::exp, src, dst),
        Op::ReducedRangeExp => map_into(exp::reduced_range_exp, src, dst),
        Op::Sigmoid => map_into(exp::sigmoid, src, dst),
        Op::Silu => map_into(exp::silu, src, dst),
        Op::Swish(alpha) => map_into(|x| exp::swish(alpha, x), src, dst),
        Op::Elu(alpha) => map_into(|x| exp::elu(alpha, x), src, dst),
        Op::Tanh => map_into(tanh::tanh, src, dst),
        Op::Erf => map_into(erf::erf, src, dst),
        Op::Gelu => map_into(erf::gelu, src, dst),
        Op::ApproxGelu => map_into(erf::approx_gelu, src, dst),
        Op::Sin => map_into(sin_cos::sin, src, dst),
        Op::Cos => map_into(sin_cos::cos, src, dst),
    }
}

// Refusals 1, 2, 3, 4 (RULES, Order); nothing is written before the last element has been looked at.
pub fn apply(op: Op, src: &[f32], dst: &mut [f32]) -> Answer
    ensures told { told_of result ≡ apply_told op src.now dst.old }
    ensures written { dst.new ≡ apply_out op src.now dst.old }
{
    if src.len() != dst.len() {
        return Err(Refusal::Length);
    }
    if src.len() > ELEMENT_LIMIT {
        return Err(Refusal::TooMany);
    }
    if !alpha_ok(op) {
        return Err(Refusal::NotFinite);
    }
    if let Some(at) = first_outside(op, src) {
        return Err(Refusal::Domain(at));
    }
    fill(op, src, dst);
    Ok(())
}
