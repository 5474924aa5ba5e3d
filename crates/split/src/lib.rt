// The split (RULES, Split): 32768 parts over the bands, in the shares of their softmax weights.
#![tactic(auto)]

ghost use Rattle.std.specs.Prelude.{map, ◌≡◌, ℕ, ◌<◌, ◌≤◌, length};
ghost use Rattle.std.specs.List.{All};
ghost use Rattle.answer.specs.Answer.{told_of};
ghost use Rattle.answer.specs.Limits.{step_count, band_limit};
ghost use Rattle.split.specs.Split.{is_weight, steps_of, split_told, split_out};

use answer::limits::{BAND_LIMIT, PARTS, STEPS};
use answer::{Answer, Refusal};
use floats::bits::abs;
use floats::round::round_ties_even;
use lists::each::map_into;
use parts::part;
use softmax::softmax;

// A weight in steps. The product is exact, and an f64 casts at every whole number below 2^32. (`abs` is for -0, which casts to none.)
fn steps_of(weight: f32) -> u32
    requires { is_weight weight }
    ensures { (result ≡ steps_of weight) × (result ≤ step_count) }
{
    let whole = round_ties_even(abs(weight) * STEPS);
    let wide = whole as f64;
    wide as u32
}

// Past refusals 7 and 1: softmax gives 4 and 5, or the weights, and they go through steps to gains. Weights and steps are lent
// for the work (no heap).
fn by_weights(levels: &[f32], weights: &mut [f32], steps: &mut [u32], gains: &mut [u16]) -> Answer
    requires in_bounds { (1 ≤ length levels.now) × (length levels.now ≤ band_limit) × (length levels.now ≡ length gains.old) }
    requires levels_len { (length levels.now ≡ length weights.old) × (length levels.now ≡ length steps.old) }
    ensures told { told_of result ≡ split_told levels.now gains.old }
    ensures written { gains.new ≡ split_out levels.now gains.old }
{
    softmax(false, levels, weights)?;
    map_into(steps_of, weights, steps);
    part(PARTS as u64, steps, gains);
    Ok(())
}

// Refusals 7, 1, 4, 5 (RULES, Order); nothing is written before the last.
pub fn split(levels: &[f32], gains: &mut [u16]) -> Answer
    ensures told { told_of result ≡ split_told levels.now gains.old }
    ensures written { gains.new ≡ split_out levels.now gains.old }
{
    let n = levels.len();
    if n < 1 {
        return Err(Refusal::Count);
    }
    if n > BAND_LIMIT {
        return Err(Refusal::Count);
    }
    if n != gains.len() {
        return Err(Refusal::Length);
    }
    let mut weights = [0.0f32; BAND_LIMIT];
    let mut steps = [0u32; BAND_LIMIT];
    by_weights(levels, &mut weights[..n], &mut steps[..n], gains)
}
