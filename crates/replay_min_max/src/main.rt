// Runs min_max, max_num and min_num on stored lists and compares with the values that the reference gives by the rule of RULES, Extremes.
// A case is n, n elements, the least, the largest, and two readings of the Rust text over one lane, that keep the first or the
// second operand on a tie: each is min_max's least and largest, max_num's value, min_num's value.
#![tactic(auto)]

use floats::bits::pattern;
use hex_words::cases::replay;
use hex_words::words::Words;
use min_max::{max_num, min_max, min_num};
use std::io;
use std::io::Write;

const ROOM: usize = 16;

// Whether the three calls give the stored values.
fn same_values(src: &[f32], least: u32, largest: u32) -> bool {
    min_max(src).is_ok_and(|got| pattern(got.least) == least && pattern(got.largest) == largest)
        && max_num(src).is_ok_and(|x| pattern(x) == largest)
        && min_num(src).is_ok_and(|x| pattern(x) == least)
}

// The same for the first n words. A case of more elements than there is room for counts as one that differs.
fn agrees(elements: Words<'_>, n: usize, least: u32, largest: u32) -> bool {
    if n > ROOM {
        return false;
    }
    let mut room = [0.0f32; ROOM];
    let src = &mut room[..n];
    elements.fill(src);
    same_values(src, least, largest)
}

// Whether a case agrees; and whether a reading differs in a bit from its values.
fn case(words: &mut Words<'_>) -> (bool, bool) {
    let n = words.word() as usize;
    let elements = words.part(n);
    let [least, largest] = words.take::<2>();
    let [first, second] = [words.take::<4>(), words.take::<4>()];
    let reading = [least, largest, largest, least];
    (
        agrees(elements, n, least, largest),
        first != reading || second != reading,
    )
}

fn readings<W: Write>(other: usize, out: &mut W) -> io::Result<()> {
    writeln!(
        out,
        "{other} lists where a reading of the text differs in a zero's sign"
    )
}

fn main(rt: HostRuntime) -> io::Result<()> {
    let mut out = rt.stdout();
    let mut other = 0usize;
    let count = |words: &mut Words<'_>| {
        let (agrees, otherwise) = case(words);
        if otherwise {
            other = other.saturating_add(1);
        }
        agrees
    };
    replay(&mut rt.stdin(), count, &mut out)?;
    readings(other, &mut out)
}
