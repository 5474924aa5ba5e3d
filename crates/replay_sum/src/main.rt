// Runs the sums on stored lists and compares with the stored sums of the Rust text over one lane.
// A case is the operator's place in `SumOp`, the offset, n, n elements and their sum.
#![tactic(auto)]

use floats::bits::{from_pattern, pattern};
use hex_words::cases::replay;
use hex_words::words::Words;
use std::io;
use sum::{SumOp, add_up};

const ROOM: usize = 128;

fn op_of(code: u32, offset: f32) -> SumOp {
    match code {
        0 => SumOp::Sum,
        1 => SumOp::SumSquare,
        2 => SumOp::SumAbs,
        3 => SumOp::SumSquareSub(offset),
        _ => SumOp::SumExpSub(offset),
    }
}

// Whether the list has the stored sum. A case of more elements than there is room for counts as one that differs.
fn agrees(words: &mut Words<'_>) -> bool {
    let [code, offset, n] = words.take::<3>();
    let n = n as usize;
    let elements = words.part(n);
    let stored = words.word();
    if n > ROOM {
        return false;
    }
    let mut room = [0.0f32; ROOM];
    let src = &mut room[..n];
    elements.fill(src);
    add_up(op_of(code, from_pattern(offset)), src).is_ok_and(|total| pattern(total) == stored)
}

fn main(rt: HostRuntime) -> io::Result<()> {
    replay(&mut rt.stdin(), agrees, &mut rt.stdout())
}
