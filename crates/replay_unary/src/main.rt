// Runs each operator on stored inputs and compares with the stored answers of the Rust text over one lane.
// A case is four words: the operator's place in `Op`, alpha, the input, the answer. The answers were made by compiling the Rust
// files unchanged against a one-lane stand-in for rten-simd with the readings of RULES, Steps; see docs/DIFFERENCES.md.
#![tactic(auto)]

use floats::bits::{from_pattern, pattern};
use hex_words::cases::{values, whole_cases};
use hex_words::ops::op_of;
use hex_words::words::Word;
use std::io;
use std::io::Write;
use system::read_in;
use unary::apply;

fn agrees(code: u32, alpha: u32, x: u32, y: u32) -> bool {
    let src = [from_pattern(x)];
    let mut dst = [0.0f32];
    apply(op_of(code, from_pattern(alpha)), &src, &mut dst).is_ok() && pattern(dst[0]) == y
}

// How many of the cases differ; each is shown.
fn replay<W: Write>(cases: &[[Word; 4]], out: &mut W) -> io::Result<usize> {
    let mut differ = 0;
    for case in cases {
        let [code, alpha, x, y] = values(case);
        if !agrees(code, alpha, x, y) {
            writeln!(out, "differs {code:08x} {alpha:08x} {x:08x}")?;
            differ += 1;
        }
    }
    Ok(differ)
}

fn main(rt: HostRuntime) -> io::Result<()> {
    let mut out = rt.stdout();
    let mut text = [0u8; 65536];
    let cases = whole_cases::<4>(read_in(&mut rt.stdin(), &mut text));
    let differ = replay(cases, &mut out)?;
    let answers = cases.len();
    writeln!(out, "{answers} answers, {differ} differ")
}
