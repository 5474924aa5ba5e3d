// Runs the f32 functions of `floats` and the words on their edges and writes what they give.
// The expected output is made by tools/float_cases.py from the words of RULES, Steps, with exact fractions.
#![tactic(auto)]

use floats::bits::{abs, abs_by_order, from_pattern, is_finite, pattern};
use floats::round::round_ties_even;
use std::io;
use std::io::Write;

// Zeros, halves and their neighbours, odd and even ties, 2^22 and 2^23 with theirs, the ends of the range, infinities and a NaN.
const FLOATS: [u32; 48] = [
    0x00000000, 0x80000000, 0x3f000000, 0xbf000000, 0x3effffff, 0xbeffffff, 0x3f000001, 0xbf000001,
    0x3e99999a, 0xbe99999a, 0x3f800000, 0xbf800000, 0x3fbfffff, 0x3fc00000, 0xbfc00000, 0x3fc00001,
    0x40200000, 0xc0200000, 0x40200001, 0x40600000, 0xc0600000, 0x40900000, 0x4a7ffffe, 0xca7ffffe,
    0x4a800000, 0x4a800001, 0xca800001, 0x4a800003, 0x4afffffd, 0x4affffff, 0xcaffffff, 0x4b000000,
    0xcb000000, 0x4b000001, 0x4b7fffff, 0x4b800000, 0x4f000000, 0xcf000000, 0x7f7fffff, 0xff7fffff,
    0x00000001, 0x80000001, 0x007fffff, 0x00800000, 0x807fffff, 0x7f800000, 0xff800000, 0x7fc00000,
];

const WORDS: [u32; 8] = [
    0x00000000, 0x00000001, 0x0000007f, 0x000001ff, 0x00000200, 0x7fffffff, 0x80000000, 0xffffffff,
];

fn word<W: Write>(n: u32, out: &mut W) -> io::Result<()> {
    write!(out, "{n:08x} ")
}

fn float_line<W: Write>(n: u32, out: &mut W) -> io::Result<()> {
    let x = from_pattern(n);
    word(n, out)?;
    word(pattern(round_ties_even(x)), out)?;
    word(pattern(abs(x)), out)?;
    word(pattern(abs_by_order(x)), out)?;
    if is_finite(x) {
        writeln!(out, "finite")
    } else {
        writeln!(out, "not finite")
    }
}

fn word_line<W: Write>(a: u32, b: u32, out: &mut W) -> io::Result<()> {
    word(a, out)?;
    word(b, out)?;
    word(a.wrapping_add(b), out)?;
    word(a.wrapping_sub(b), out)?;
    let shifted = a << 23;
    writeln!(out, "{shifted:08x}")
}

fn main(rt: HostRuntime) -> io::Result<()> {
    let mut out = rt.stdout();
    for n in FLOATS {
        float_line(n, &mut out)?;
    }
    for a in WORDS {
        for b in WORDS {
            word_line(a, b, &mut out)?;
        }
    }
    Ok(())
}
