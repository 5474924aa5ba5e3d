// softmax.rs of rten-vecmath: `Softmax` from one slice into another, and in place.
#![tactic(auto)]

ghost use Rattle.std.specs.Prelude.{false, ◌≡◌};
ghost use Rattle.std.specs.List.{list_all};
ghost use Rattle.std.specs.Float.{binary32};
ghost use Rattle.std.specs.Float.Ieee.{sub, lt};
ghost use Rattle.answer.specs.Answer.{told_of};
ghost use Rattle.floats.specs.Values.{zero_f};
ghost use Rattle.softmax.specs.Softmax.{is_masked, in_domain, all_masked, max_of, exp_less, sum_of, scaled_by, in_place_answer, in_place_told, in_place_out, softmax_told, softmax_out};

use answer::limits::ELEMENT_LIMIT;
use answer::{Answer, Refusal};
use exp::reduced_range_exp;
use floats::bits::{F32_MIN, infinity};
use lists::{each, search};
use min_max::largest_from;
use sum::{SumOp, sum_from};

fn is_masked(x: f32) -> bool
    ensures { result ≡ is_masked x }
{
    x == -infinity()
}

// Finite or minus infinity: below plus infinity.
fn in_domain(x: f32) -> bool
    ensures { result ≡ in_domain x }
{
    x < infinity()
}

fn each_masked(src: &[f32]) -> bool
    ensures { result ≡ list_all is_masked src.now }
{
    src.iter().all(|x| is_masked(*x))
}

fn all_masked(src: &[f32]) -> bool
    ensures { result ≡ all_masked src.now }
{
    !src.is_empty() && each_masked(src)
}

// Refusals 2, 4 and 5 (RULES, Order), for both calls.
fn judge(flush: bool, src: &[f32]) -> Answer
    ensures { result ≡ in_place_answer flush src.now }
{
    if src.len() > ELEMENT_LIMIT {
        return Err(Refusal::TooMany);
    }
    if let Some(at) = search::first_failing(in_domain, src) {
        return Err(Refusal::Domain(at));
    }
    if !flush && all_masked(src) {
        return Err(Refusal::Masked);
    }
    Ok(())
}

fn max(src: &[f32]) -> f32
    ensures { result ≡ max_of src.now }
{
    largest_from(F32_MIN, src)
}

// The exponential of an element, less the largest.
fn exp_less(max: f32, x: f32) -> f32
    requires { lt zero_f (sub binary32 x max) ≡ false }
    ensures { result ≡ exp_less max x }
{
    reduced_range_exp(x - max)
}

// Every element times the reciprocal of the sum.
fn scale(buf: &mut [f32])
    ensures { buf.new ≡ scaled_by (sum_of buf.old) buf.old }
{
    let factor = 1.0 / sum_from(SumOp::Sum, 0.0, buf);
    each::map_in_place(|x| x * factor, buf);
}

// Refusals 1, 2, 4, 5 (RULES, Order); nothing is written before the last element has been looked at.
pub fn softmax(flush: bool, src: &[f32], dst: &mut [f32]) -> Answer
    ensures told { told_of result ≡ softmax_told flush src.now dst.old }
    ensures written { dst.new ≡ softmax_out flush src.now dst.old }
{
    if src.len() != dst.len() {
        return Err(Refusal::Length);
    }
    judge(flush, src)?;
    if all_masked(src) {
        // A slice's own `fill` takes 16 bytes of stack more.
        each::map_in_place(|_x| 0.0, dst);
        return Ok(());
    }
    let max = max(src);
    each::map_into(|x| exp_less(max, x), src, dst);
    scale(dst);
    Ok(())
}

// The same in one slice, a C call of its own: refusals 2, 4, 5.
pub fn softmax_in_place(flush: bool, buf: &mut [f32]) -> Answer
    ensures told { told_of result ≡ in_place_told flush buf.old }
    ensures written { buf.new ≡ in_place_out flush buf.old }
{
    judge(flush, buf)?;
    if all_masked(buf) {
        each::map_in_place(|_x| 0.0, buf);
        return Ok(());
    }
    let max = max(buf);
    each::map_in_place(|x| exp_less(max, x), buf);
    scale(buf);
    Ok(())
}
