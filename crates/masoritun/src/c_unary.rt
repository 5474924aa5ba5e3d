// The operators: `unary::apply` by its own name for each.
ghost use Rattle.std.specs.Prelude.{◌≡◌};
ghost use Rattle.pack.specs.Pack.{packed};
ghost use Rattle.unary.specs.Unary.{apply_told, apply_out};
ghost use Rattle.unary.specs.declared.Op.TheVariants.{Exp, ReducedRangeExp, Sigmoid, Silu, Swish, Elu, Tanh, Erf, Gelu, ApproxGelu, Sin, Cos};

use pack::pack;
use unary::{Op, apply};

fn run(op: Op, src: &[f32], dst: &mut [f32]) -> u64
    ensures told { result ≡ packed (apply_told op src.now dst.old) }
    ensures written { dst.new ≡ apply_out op src.now dst.old }
{
    pack(apply(op, src, dst))
}

#[unsafe(no_mangle)]
pub extern "C" fn mst_exp(src: &[f32], dst: &mut [f32]) -> u64
    ensures told { result ≡ packed (apply_told Exp src.now dst.old) }
    ensures written { dst.new ≡ apply_out Exp src.now dst.old }
{
    run(Op::Exp, src, dst)
}

#[unsafe(no_mangle)]
pub extern "C" fn mst_reduced_range_exp(src: &[f32], dst: &mut [f32]) -> u64
    ensures told { result ≡ packed (apply_told ReducedRangeExp src.now dst.old) }
    ensures written { dst.new ≡ apply_out ReducedRangeExp src.now dst.old }
{
    run(Op::ReducedRangeExp, src, dst)
}

#[unsafe(no_mangle)]
pub extern "C" fn mst_sigmoid(src: &[f32], dst: &mut [f32]) -> u64
    ensures told { result ≡ packed (apply_told Sigmoid src.now dst.old) }
    ensures written { dst.new ≡ apply_out Sigmoid src.now dst.old }
{
    run(Op::Sigmoid, src, dst)
}

#[unsafe(no_mangle)]
pub extern "C" fn mst_silu(src: &[f32], dst: &mut [f32]) -> u64
    ensures told { result ≡ packed (apply_told Silu src.now dst.old) }
    ensures written { dst.new ≡ apply_out Silu src.now dst.old }
{
    run(Op::Silu, src, dst)
}

#[unsafe(no_mangle)]
pub extern "C" fn mst_swish(alpha: f32, src: &[f32], dst: &mut [f32]) -> u64
    ensures told { result ≡ packed (apply_told (Swish alpha) src.now dst.old) }
    ensures written { dst.new ≡ apply_out (Swish alpha) src.now dst.old }
{
    run(Op::Swish(alpha), src, dst)
}

#[unsafe(no_mangle)]
pub extern "C" fn mst_elu(alpha: f32, src: &[f32], dst: &mut [f32]) -> u64
    ensures told { result ≡ packed (apply_told (Elu alpha) src.now dst.old) }
    ensures written { dst.new ≡ apply_out (Elu alpha) src.now dst.old }
{
    run(Op::Elu(alpha), src, dst)
}

#[unsafe(no_mangle)]
pub extern "C" fn mst_tanh(src: &[f32], dst: &mut [f32]) -> u64
    ensures told { result ≡ packed (apply_told Tanh src.now dst.old) }
    ensures written { dst.new ≡ apply_out Tanh src.now dst.old }
{
    run(Op::Tanh, src, dst)
}

#[unsafe(no_mangle)]
pub extern "C" fn mst_erf(src: &[f32], dst: &mut [f32]) -> u64
    ensures told { result ≡ packed (apply_told Erf src.now dst.old) }
    ensures written { dst.new ≡ apply_out Erf src.now dst.old }
{
    run(Op::Erf, src, dst)
}

#[unsafe(no_mangle)]
pub extern "C" fn mst_gelu(src: &[f32], dst: &mut [f32]) -> u64
    ensures told { result ≡ packed (apply_told Gelu src.now dst.old) }
    ensures written { dst.new ≡ apply_out Gelu src.now dst.old }
{
    run(Op::Gelu, src, dst)
}

#[unsafe(no_mangle)]
pub extern "C" fn mst_approx_gelu(src: &[f32], dst: &mut [f32]) -> u64
    ensures told { result ≡ packed (apply_told ApproxGelu src.now dst.old) }
    ensures written { dst.new ≡ apply_out ApproxGelu src.now dst.old }
{
    run(Op::ApproxGelu, src, dst)
}

#[unsafe(no_mangle)]
pub extern "C" fn mst_sin(src: &[f32], dst: &mut [f32]) -> u64
    ensures told { result ≡ packed (apply_told Sin src.now dst.old) }
    ensures written { dst.new ≡ apply_out Sin src.now dst.old }
{
    run(Op::Sin, src, dst)
}

#[unsafe(no_mangle)]
pub extern "C" fn mst_cos(src: &[f32], dst: &mut [f32]) -> u64
    ensures told { result ≡ packed (apply_told Cos src.now dst.old) }
    ensures written { dst.new ≡ apply_out Cos src.now dst.old }
{
    run(Op::Cos, src, dst)
}
