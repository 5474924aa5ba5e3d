// The operators by their places in `Op`.
ghost use Rattle.std.specs.Prelude.{◌≡◌};
ghost use Rattle.hex_words.specs.Ops.{op_at};

use unary::Op;

pub fn op_of(code: u32, alpha: f32) -> Op
    ensures { result ≡ op_at code alpha }
{
    match code {
        0 => Op::Exp,
        1 => Op::ReducedRangeExp,
        2 => Op::Sigmoid,
        3 => Op::Silu,
        4 => Op::Swish(alpha),
        5 => Op::Elu(alpha),
        6 => Op::Tanh,
        7 => Op::Erf,
        8 => Op::Gelu,
        9 => Op::ApproxGelu,
        10 => Op::Sin,
        _ => Op::Cos,
    }
}
