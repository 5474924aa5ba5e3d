// Runs the operators on stored cases: the calls of RULES, Worked, the ends of each domain, and calls where several things are wrong at once.
// A case is seven words: the operator's place in `Op`, alpha, how many elements of src and of dst are lent, and src's first three
// elements; the others are +0, and dst holds sevens. A line is number, place, and dst afterwards, what is not lent too: each word that
// is unlike the one before it, after its place. The last line says how many cases there were. tools/unary_cases.py makes both files.
#![tactic(auto)]

use floats::bits::pattern;
use hex_words::cases::whole_cases;
use hex_words::lines::told;
use hex_words::ops::op_of;
use hex_words::words::{Word, Words};
use std::io;
use std::io::Write;
use system::read_in;
use unary::apply;

fn show_words<W: Write>(dst: &[f32], out: &mut W) -> io::Result<()> {
    let mut held = None;
    for (i, x) in dst.iter().enumerate() {
        let next = pattern(*x);
        if held != Some(next) {
            write!(out, " {i}:{next:08x}")?;
            held = Some(next);
        }
    }
    writeln!(out, "")
}

fn show_case<W: Write>(case: &[Word; 7], out: &mut W) -> io::Result<()> {
    let mut words = Words { rest: case };
    let op = op_of(words.word(), words.float());
    // There is room for 16,385.
    let n = words.word() as usize % 16386;
    let m = words.word() as usize % 16386;
    let mut src = [0.0f32; 16385];
    words.fill(&mut src[..3]);
    let mut dst = [7.0f32; 16385];
    told(apply(op, &src[..n], &mut dst[..m]), out)?;
    show_words(&dst, out)
}

fn main(rt: HostRuntime) -> io::Result<()> {
    let mut out = rt.stdout();
    let mut text = [0u8; 65536];
    let cases = whole_cases::<7>(read_in(&mut rt.stdin(), &mut text));
    for case in cases {
        show_case(case, &mut out)?;
    }
    let count = cases.len();
    writeln!(out, "{count} cases")
}
