// The first element that does not pass a test.
ghost use Rattle.std.specs.Prelude.{◌≡◌, ◌<◌, true, false, length, MatchOption, slice_index_or};
ghost use Rattle.std.specs.List.{All};
ghost use Rattle.lists.specs.Search.{SomeFailing, FirstFailing};

// A look at all elements with no early end, so that it runs in lanes.
pub fn any_failing<A: Copy, F: Fn(A) -> bool>(passes: F, src: &[A]) -> bool
    requires { All (F.pre passes) src.now }
    ensures none { result ≡ false → All (λ x. F.post passes x true) src.now }
    ensures one { result ≡ true → SomeFailing (F.post passes) src.now }
{
    let mut bad = false;
    for x in src {
        bad |= !passes(*x);
    }
    bad
}

// Its place, if there is one. Most lists have none, which the look shows.
pub fn first_failing<A: Copy, F: Fn(A) -> bool>(passes: F, src: &[A]) -> Option<usize>
    requires { All (F.pre passes) src.now }
    ensures { FirstFailing (F.post passes) src.now result }
{
    if !any_failing(&passes, src) {
        return None;
    }
    for (i, x) in src.iter().enumerate() {
        if !passes(*x) {
            return Some(i);
        }
    }
    None
}
