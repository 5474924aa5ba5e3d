// Splits stored levels, and writes for each case the answer's number and place, the gains that are left and their sum.
// A case is m, n and n levels, with m gains lent; the expected lines come from tools/split_cases.py.
#![tactic(auto)]

use hex_words::cases::each_case;
use hex_words::lines::told;
use hex_words::words::Words;
use split::split;
use std::io;
use std::io::Write;
use system::read_in;

const ROOM: usize = 65;

fn show_gains<W: Write>(gains: &[u16], out: &mut W) -> io::Result<()> {
    for gain in gains {
        write!(out, " {gain}")?;
    }
    let sum = gains
        .iter()
        .fold(0u32, |sum, gain| sum.wrapping_add(u32::from(*gain)));
    writeln!(out, ", sum {sum}")
}

// A case with more levels or gains than there is room for has no line.
fn show_case<W: Write>(words: &mut Words<'_>, out: &mut W) -> io::Result<()> {
    let (m, n) = (words.word() as usize, words.word() as usize);
    let elements = words.part(n);
    if m > ROOM || n > ROOM {
        return Ok(());
    }
    // 7, so that what is not written shows.
    let (mut room, mut written) = ([0.0f32; ROOM], [7u16; ROOM]);
    let (levels, gains) = (&mut room[..n], &mut written[..m]);
    elements.fill(levels);
    told(split(levels, gains), out)?;
    write!(out, ":")?;
    show_gains(gains, out)
}

fn main(rt: HostRuntime) -> io::Result<()> {
    let mut out = rt.stdout();
    let mut text = [0u8; 65536];
    let text = read_in(&mut rt.stdin(), &mut text);
    each_case(text, |_, words| show_case(words, &mut out))?;
    Ok(())
}
