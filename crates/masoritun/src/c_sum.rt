// The sums: `sum::add_up` by its own name for each. `result` is part of the answer: written on every call, +0 where refused.
ghost use Rattle.std.specs.Prelude.{◌≡◌};
ghost use Rattle.pack.specs.Pack.{packed};
ghost use Rattle.sum.specs.Sum.{add_up_told};
ghost use Rattle.sum.specs.declared.SumOp.TheVariants.{Sum, SumSquare, SumAbs, SumSquareSub, SumExpSub};

use crate::value::give;
use sum::{SumOp, add_up};

fn run(op: SumOp, src: &[f32], res: &mut f32) -> u64
    ensures told { result ≡ packed (add_up_told op src.now).0 }
    ensures value { res.new ≡ (add_up_told op src.now).1 }
{
    give(add_up(op, src), res)
}

#[unsafe(no_mangle)]
pub extern "C" fn mst_sum(src: &[f32], res: &mut f32) -> u64
    ensures told { result ≡ packed (add_up_told Sum src.now).0 }
    ensures value { res.new ≡ (add_up_told Sum src.now).1 }
{
    run(SumOp::Sum, src, res)
}

#[unsafe(no_mangle)]
pub extern "C" fn mst_sum_square(src: &[f32], res: &mut f32) -> u64
    ensures told { result ≡ packed (add_up_told SumSquare src.now).0 }
    ensures value { res.new ≡ (add_up_told SumSquare src.now).1 }
{
    run(SumOp::SumSquare, src, res)
}

#[unsafe(no_mangle)]
pub extern "C" fn mst_sum_abs(src: &[f32], res: &mut f32) -> u64
    ensures told { result ≡ packed (add_up_told SumAbs src.now).0 }
    ensures value { res.new ≡ (add_up_told SumAbs src.now).1 }
{
    run(SumOp::SumAbs, src, res)
}

#[unsafe(no_mangle)]
pub extern "C" fn mst_sum_square_sub(offset: f32, src: &[f32], res: &mut f32) -> u64
    ensures told { result ≡ packed (add_up_told (SumSquareSub offset) src.now).0 }
    ensures value { res.new ≡ (add_up_told (SumSquareSub offset) src.now).1 }
{
    run(SumOp::SumSquareSub(offset), src, res)
}

#[unsafe(no_mangle)]
pub extern "C" fn mst_sum_exp_sub(offset: f32, src: &[f32], res: &mut f32) -> u64
    ensures told { result ≡ packed (add_up_told (SumExpSub offset) src.now).0 }
    ensures value { res.new ≡ (add_up_told (SumExpSub offset) src.now).1 }
{
    run(SumOp::SumExpSub(offset), src, res)
}
