// quantize.rs, to u8: y = saturate(round(x * inv_scale) + zero_point).
#![tactic(auto)]

ghost use Rattle.std.specs.Prelude.{◌≡◌};
ghost use Rattle.answer.specs.Answer.{told_of};
ghost use Rattle.quantize.specs.Quantize.{code_steps, clamp_of, code_of, quantize_told, quantize_out};

use answer::limits::ELEMENT_LIMIT;
use answer::{Answer, Refusal};
use floats::bits::{abs_by_order, is_finite};
use floats::round::round_ties_even;
use floats::scan::first_not_finite;
use lists::each::map_into;

// How many whole steps y lies from 0, ties to even; 256, which passes every code, stands for all from there on, so no cast can wrap.
fn steps(y: f32) -> u32
    ensures { result ≡ code_steps y }
{
    let size = round_ties_even(abs_by_order(y));
    if size < 256.0 { size as u32 } else { 256 }
}

// The zero point moved by y, held to 0..255.
fn clamp(zero_point: u8, y: f32) -> u8
    ensures { result ≡ clamp_of zero_point y }
{
    let n = steps(y);
    let zp = u32::from(zero_point);
    if y < 0.0 {
        zp.saturating_sub(n) as u8
    } else {
        (zp + n).min(255) as u8
    }
}

fn code(inv_scale: f32, zero_point: u8, x: f32) -> u8
    ensures { result ≡ code_of inv_scale zero_point x }
{
    clamp(zero_point, x * inv_scale)
}

// Refusals 1, 2, 3, 4 (RULES, Order); nothing is written before the last element has been looked at.
pub fn quantize(inv_scale: f32, zero_point: u8, src: &[f32], dst: &mut [u8]) -> Answer
    ensures told { told_of result ≡ quantize_told inv_scale src.now dst.old }
    ensures written { dst.new ≡ quantize_out inv_scale zero_point src.now dst.old }
{
    if src.len() != dst.len() {
        return Err(Refusal::Length);
    }
    if src.len() > ELEMENT_LIMIT {
        return Err(Refusal::TooMany);
    }
    if !is_finite(inv_scale) {
        return Err(Refusal::NotFinite);
    }
    if let Some(at) = first_not_finite(src) {
        return Err(Refusal::Domain(at));
    }
    map_into(|x| code(inv_scale, zero_point, x), src, dst);
    Ok(())
}
