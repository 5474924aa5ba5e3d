// min_max.rs of rten-vecmath over one slice: the extremes of floats that are no NaN, by ordered folds.
#![tactic(auto)]

ghost use Rattle.std.specs.Prelude.{true, false, ◌≡◌, ℕ, ◌<◌, length};
ghost use Rattle.lists.specs.Search.{found_not};
ghost use Rattle.min_max.specs.MinMax.{least_from, largest_from, number_at};
ghost use Rattle.min_max.specs.MinMax.{extremes_told, extreme_told, min_max_told, max_num_told, min_num_told};

mod pass;

use crate::pass::{Top, pass};
use answer::Refusal;
use answer::limits::ELEMENT_LIMIT;
use floats::bits::infinity;

#[derive(Clone, Copy)]
pub struct Extremes {
    pub least: f32,
    pub largest: f32,
}

// What one pass over a slice sees. The numbers hold whatever the flag says, so they are no Option.
#[derive(Clone, Copy)]
pub struct Seen {
    pub least: f32,
    pub largest: f32,
    pub nan: bool,
}

// The held value or the largest element, the first of equal ones. For the crates above.
pub fn largest_from(held: f32, src: &[f32]) -> f32
    ensures { result ≡ largest_from held src.now }
{
    pass(Top { value: held }, src).value
}

// Both extremes from held values on, and whether an element is a NaN, in one pass. For the crates above.
pub fn look(least: f32, largest: f32, src: &[f32]) -> Seen
    ensures low { result.least ≡ least_from least src.now }
    ensures high { result.largest ≡ largest_from largest src.now }
    ensures numbers { result.nan ≡ false → (i : ℕ) → i < length src.now → number_at src.now i ≡ true }
{
    let held = Seen {
        least,
        largest,
        nan: false,
    };
    pass(held, src)
}

// The place of the first NaN, if there is one; `any` is what a pass has seen.
fn first_nan(any: bool, src: &[f32]) -> Option<usize>
    requires { any ≡ false → (i : ℕ) → i < length src.now → number_at src.now i ≡ true }
    ensures { result ≡ found_not (number_at src.now) (length src.now) }
{
    if !any {
        return None;
    }
    src.iter().position(|x| x.is_nan())
}

// `MinMax`; refusals 2 and 4, which the three calls share.
pub fn min_max(src: &[f32]) -> Result<Extremes, Refusal>
    ensures { extremes_told result ≡ min_max_told src.now }
{
    if src.len() > ELEMENT_LIMIT {
        return Err(Refusal::TooMany);
    }
    let top = infinity();
    let seen = look(top, -top, src);
    match first_nan(seen.nan, src) {
        Some(bad) => Err(Refusal::Domain(bad)),
        None => Ok(Extremes {
            least: seen.least,
            largest: seen.largest,
        }),
    }
}

// `MaxNum`: the two folds of a pass run beside each other, so the one that isn't asked for costs nothing.
pub fn max_num(src: &[f32]) -> Result<f32, Refusal>
    ensures { extreme_told result ≡ max_num_told src.now }
{
    min_max(src).map(|both| both.largest)
}

// `MinNum`
pub fn min_num(src: &[f32]) -> Result<f32, Refusal>
    ensures { extreme_told result ≡ min_num_told src.now }
{
    min_max(src).map(|both| both.least)
}
