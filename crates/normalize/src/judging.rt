// What normalize refuses, and where. It only reads.
ghost use Rattle.std.specs.Prelude.{◌≡◌, true, false, ℕ, ◌<◌, is_some, length, slice_index_or};
ghost use Rattle.std.specs.Float.{nan};
ghost use Rattle.std.specs.Float.Ieee.Scale.{finite};
ghost use Rattle.answer.specs.Answer.{judged};
ghost use Rattle.lists.specs.Search.{found_not};
ghost use Rattle.normalize.specs.Normalize.{list_of, settings_ok, tests};
ghost use Rattle.normalize.specs.Scaling.{FirstAt, Fits, result_by, all_finite, number_by, tests_by};

use crate::Settings;
use crate::scaling::{Scaling, unfit};
use answer::limits::ELEMENT_LIMIT;
use answer::{Answer, Refusal};
use floats::bits::is_finite;
use floats::scan::any_not_finite;

impl Settings {
    fn are_finite(self) -> bool
        ensures { result ≡ settings_ok self }
    {
        is_finite(self.pre_scale_bias) && is_finite(self.scale) && is_finite(self.bias)
    }
}

// The first place where a test of it and its element fails.
fn first_failing<F: Fn(usize, f32) -> bool>(passes: F, src: &[f32]) -> Option<usize>
    requires { (i : ℕ) → i < length src.now → F.pre passes i (slice_index_or src.now i nan) }
    ensures { FirstAt (λ i. F.post passes i (slice_index_or src.now i nan)) (length src.now) result }
{
    for (i, x) in src.iter().enumerate() {
        if !passes(i, *x) {
            return Some(i);
        }
    }
    None
}

// The first place where the element or what is in use beside it is not finite. (Which slices are in use is asked once: asked in
// the loop, the search took 1.4 times as long.)
fn first_not_finite(by: Scaling, src: &[f32]) -> Option<usize>
    requires { Fits by (length src.now) }
    ensures { result ≡ found_not (all_finite by.entry src.now) (length src.now) }
{
    match (by.element_scale, by.element_bias) {
        (None, None) => first_failing(|_i, x| is_finite(x), src),
        (Some(es), None) => first_failing(|i, x| is_finite(x) && is_finite(es[i]), src),
        (None, Some(eb)) => first_failing(|i, x| is_finite(x) && is_finite(eb[i]), src),
        (Some(es), Some(eb)) => first_failing(
            |i, x| is_finite(x) && is_finite(es[i]) && is_finite(eb[i]),
            src,
        ),
    }
}

// A look at all results with no early end, so that it runs in lanes. A finite one shows that all that went into it is finite.
fn any_not_finite_result(by: Scaling, src: &[f32]) -> bool
    requires { Fits by (length src.now) }
    ensures { result ≡ false → (i : ℕ) → i < length src.now → finite (result_by by.entry src.now i) ≡ true }
{
    let mut bad = false;
    for (i, x) in src.iter().enumerate() {
        bad |= !is_finite(by.at(i, *x));
    }
    bad
}

// Whether the places are to be searched: no where a look shows that all in use is finite and every result a number.
// With no per-element slice, and a scale other than zero, finite data gives numbers.
fn needs_search(by: Scaling, src: &[f32]) -> bool
    requires fits { Fits by (length src.now) }
    requires settings { settings_ok by.settings ≡ true }
    ensures { result ≡ false
        → (i : ℕ) → i < length src.now → (all_finite by.entry src.now i ≡ true) × (number_by by.entry src.now i ≡ true) }
{
    if by.element_scale.is_none() && by.element_bias.is_none() && by.settings.scale != 0.0 {
        return any_not_finite(src);
    }
    any_not_finite_result(by, src)
}

// Refusals 1, 2, 3, 4, 6 (RULES, Order), but for the length of what is written. It only reads. (By reference: a copy takes 64
// bytes of stack more.)
pub fn judge(by: &Scaling, src: &[f32]) -> Answer
    ensures { result ≡ judged (tests_by by.now src.now) }
{
    let n = src.len();
    if unfit(by.element_scale, n) || unfit(by.element_bias, n) {
        return Err(Refusal::Length);
    }
    if n > ELEMENT_LIMIT {
        return Err(Refusal::TooMany);
    }
    if !by.settings.are_finite() {
        return Err(Refusal::NotFinite);
    }
    if !needs_search(*by, src) {
        return Ok(());
    }
    if let Some(at) = first_not_finite(*by, src) {
        return Err(Refusal::Domain(at));
    }
    if let Some(at) = first_failing(|i, x| !by.at(i, x).is_nan(), src) {
        return Err(Refusal::Result(at));
    }
    Ok(())
}
