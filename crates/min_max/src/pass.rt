// One pass over a slice, in four runs beside each other, so that no element waits for all before it.
ghost use Rattle.std.specs.Prelude.{◌≡◌, ◌++◌, length, Float, List};
ghost use Rattle.min_max.specs.MinMax.{Least, Largest, keep};
ghost use Rattle.min_max.specs.Pass.{folded, PassLaw, top_start, top_take, top_join, seen_start, seen_take, seen_join};

use crate::Seen;
use floats::bits::infinity;

// What a pass holds. A run may begin at `start` instead of at what is held before it, and be joined to that.
pub trait Held: Copy {
    ghost start_is: { Self };

    ghost take_is: { Self → Float → Self };

    ghost join_is: { Self → Self → Self };

    fn start() -> Self
        ensures { result ≡ start_is };

    fn take(self, x: f32) -> Self
        ensures { result ≡ take_is self x };

    fn join(self, later: Self) -> Self
        ensures { result ≡ join_is self later };
}

// The next held value: x where it lies strictly beyond the held one. (One function of both sides would take the operator, and be no plainer.)
fn lower(held: f32, x: f32) -> f32
    ensures { result ≡ keep Least held x }
{
    if x < held { x } else { held }
}

fn higher(held: f32, x: f32) -> f32
    ensures { result ≡ keep Largest held x }
{
    if x > held { x } else { held }
}

// The largest alone.
#[derive(Clone, Copy)]
pub struct Top {
    pub value: f32,
}

impl Held for Top {
    ghost start_is = { top_start };

    ghost take_is = { top_take };

    ghost join_is = { top_join };

    fn start() -> Top {
        Top { value: -infinity() }
    }

    fn take(self, x: f32) -> Top {
        Top {
            value: higher(self.value, x),
        }
    }

    fn join(self, later: Top) -> Top {
        self.take(later.value)
    }
}

impl Held for Seen {
    ghost start_is = { seen_start };

    ghost take_is = { seen_take };

    ghost join_is = { seen_join };

    fn start() -> Seen {
        let top = infinity();
        Seen {
            least: top,
            largest: -top,
            nan: false,
        }
    }

    fn take(self, x: f32) -> Seen {
        Seen {
            least: lower(self.least, x),
            largest: higher(self.largest, x),
            nan: self.nan | x.is_nan(),
        }
    }

    fn join(self, later: Seen) -> Seen {
        Seen {
            least: lower(self.least, later.least),
            largest: higher(self.largest, later.largest),
            nan: self.nan | later.nan,
        }
    }
}

// The first run goes on from what is held, the others begin anew; the four are joined in order.
fn four_runs<H: Held>(held: H, a: &[f32], b: &[f32], c: &[f32], d: &[f32]) -> H
    requires joins { PassLaw H.start_is H.take_is H.join_is }
    requires alike { (length a.now ≡ length b.now) × ((length a.now ≡ length c.now) × (length a.now ≡ length d.now)) }
    ensures { result ≡ folded H.take_is held (a.now ++ b.now ++ c.now ++ d.now) }
{
    let mut held_a = held;
    let mut held_b = H::start();
    let mut held_c = H::start();
    let mut held_d = H::start();
    for (i, x) in a.iter().enumerate() {
        held_a = held_a.take(*x);
        held_b = held_b.take(b[i]);
        held_c = held_c.take(c[i]);
        held_d = held_d.take(d[i]);
    }
    held_a.join(held_b).join(held_c).join(held_d)
}

pub fn pass<H: Held>(held: H, src: &[f32]) -> H
    requires { PassLaw H.start_is H.take_is H.join_is }
    ensures { result ≡ folded H.take_is held src.now }
{
    let quarter = src.len() / 4;
    let (a, after_a) = src.split_at(quarter);
    let (b, after_b) = after_a.split_at(quarter);
    let (c, after_c) = after_b.split_at(quarter);
    let (d, rest) = after_c.split_at(quarter);
    let mut held = four_runs(held, a, b, c, d);
    for x in rest {
        held = held.take(*x);
    }
    held
}
