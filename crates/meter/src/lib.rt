// A meter of samples: their count, the overs among them, the sum of their squares, the least and the largest. Each feeding takes the meter and hands the next one back.
#![tactic(auto)]

ghost use Rattle.std.specs.Prelude.{◌≡◌, ◌≤◌, length};
ghost use Rattle.lists.specs.Lists.{bit};
ghost use Rattle.answer.specs.Limits.{element_limit};
ghost use Rattle.sum.specs.Sum.{sum_from};
ghost use Rattle.sum.specs.declared.SumOp.TheVariants.{SumSquare};
ghost use Rattle.meter.specs.Meter.{is_over, overs_in, sound_meter, new_meter, feed_of, fed_told};

use answer::Refusal;
use answer::limits::ELEMENT_LIMIT;
use floats::bits::{infinity, is_finite};
use floats::scan::first_unless_shown;
use min_max::look;

// The most samples that a meter counts; refusal 2 is for more.
pub const COUNT_LIMIT: u32 = 4294967295;

// A sample of this size or a larger one is an over.
const FULL_SCALE: f32 = 1.0;

#[derive(Clone, Copy)]
pub struct Meter {
    pub count: u32,
    pub overs: u32,
    pub sum_squares: f32,
    pub least: f32,
    pub largest: f32,
}

// 1 for an over, else 0. The compiler makes one comparison of the two.
fn over(x: f32) -> u32
    ensures { result ≡ bit (is_over x) }
{
    u32::from((x >= FULL_SCALE) | (x <= -FULL_SCALE))
}

// The squares from a held sum on, and the overs. An addition waits for the one before it, so counting beside it takes no time of its own.
fn added(held: f32, src: &[f32]) -> (f32, u32)
    requires { length src.now ≤ element_limit }
    ensures squares { result.0 ≡ sum_from SumSquare held src.now }
    ensures overs { result.1 ≡ overs_in src.now }
{
    let mut squares = held;
    let mut overs = 0;
    for x in src {
        squares = *x * *x + squares;
        overs += over(*x);
    }
    (squares, overs)
}

impl Meter {
    pub fn new() -> Meter
        ensures { result ≡ new_meter }
    {
        let top = infinity();
        Meter {
            count: 0,
            overs: 0,
            sum_squares: 0.0,
            least: top,
            largest: -top,
        }
    }

    // No float of the meter is a NaN, which is unlike itself, its sum of squares is not below zero, and it has no more overs than samples.
    fn is_sound(self) -> bool
        ensures { result ≡ sound_meter self }
    {
        let numbers = (self.sum_squares == self.sum_squares)
            & (self.least == self.least)
            & (self.largest == self.largest);
        let not_below = !(self.sum_squares < 0.0);
        let few_overs = self.overs <= self.count;
        numbers & not_below & few_overs
    }

    pub fn feed(self, src: &[f32]) -> Result<Meter, Refusal>
        ensures { fed_told result ≡ fed_told (feed_of self src.now) }
    {
        if src.len() > ELEMENT_LIMIT {
            return Err(Refusal::TooMany);
        }
        let samples = src.len() as u32;
        if self.count > COUNT_LIMIT - samples {
            return Err(Refusal::TooMany);
        }
        if !self.is_sound() {
            return Err(Refusal::NotFinite);
        }
        let (squares, overs) = added(self.sum_squares, src);
        // a finite sum of squares shows finite samples
        if let Some(bad) = first_unless_shown(is_finite(squares), src) {
            return Err(Refusal::Domain(bad));
        }
        let seen = look(self.least, self.largest, src);
        Ok(Meter {
            count: self.count + samples,
            overs: self.overs + overs,
            sum_squares: squares,
            least: seen.least,
            largest: seen.largest,
        })
    }
}
