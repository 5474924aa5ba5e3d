// The first element of a slice that is no finite number.
ghost use Rattle.std.specs.Prelude.{◌≡◌, ℕ, ◌<◌, true, false, length};
ghost use Rattle.lists.specs.Search.{found_not};
ghost use Rattle.floats.specs.Floats.{finite_at};

use crate::bits::is_finite;
use lists::search;

// Whether a look at all elements, which runs in lanes, finds one.
pub fn any_not_finite(src: &[f32]) -> bool
    ensures { result ≡ false → (i : ℕ) → i < length src.now → finite_at src.now i ≡ true }
{
    search::any_failing(is_finite, src)
}

// Its place, if there is one.
pub fn first_not_finite(src: &[f32]) -> Option<usize>
    ensures { result ≡ found_not (finite_at src.now) (length src.now) }
{
    search::first_failing(is_finite, src)
}

// The same, with no look where it is shown that every element is finite.
pub fn first_unless_shown(shown: bool, src: &[f32]) -> Option<usize>
    requires { shown ≡ true → (i : ℕ) → i < length src.now → finite_at src.now i ≡ true }
    ensures { result ≡ found_not (finite_at src.now) (length src.now) }
{
    if shown {
        return None;
    }
    first_not_finite(src)
}
