// The sum of the exponentials, in runs: they go in lanes, and only the additions in order.
ghost use Rattle.std.specs.Prelude.{◌≡◌, ◌≤◌, length};
ghost use Rattle.sum.specs.Sum.{sum_from};
ghost use Rattle.sum.specs.declared.SumOp.TheVariants.{SumExpSub};

use crate::sum;
use exp::exp;
use lists::each::map_into;

// Elements of a run: a length that the compiler knows.
const RUN: usize = 16;

fn sum_run(offset: f32, held: f32, run: &[f32]) -> f32
    requires { length run.now ≤ 16 }
    ensures { result ≡ sum_from (SumExpSub offset) held run.now }
{
    let mut room = [0.0f32; RUN];
    let exponentials = &mut room[..run.len()];
    map_into(|x| exp(x - offset), run, exponentials);
    sum(held, exponentials)
}

// The last run may be shorter.
pub fn sum_exp_sub(offset: f32, held: f32, src: &[f32]) -> f32
    ensures { result ≡ sum_from (SumExpSub offset) held src.now }
{
    let mut sum = held;
    let mut rest = src;
    while let Some((run, tail)) = rest.split_first_chunk::<RUN>() {
        sum = sum_run(offset, sum, run);
        rest = tail;
    }
    sum_run(offset, sum, rest)
}
