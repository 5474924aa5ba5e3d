// Feeds meters as stored cases say: one list whole, in halves and one by one, and feedings at the limits and past them.
// A case is 19 words: 1 for the held meter, a new one at first, or 0 for the one that the next five give; how many samples are fed; and
// the first twelve of them, after which each is 1. A line is number, place, and the meter that is held afterwards: count, overs, sum of
// squares, least and largest. The last line says how many cases there were. tools/meter_cases.py makes both files.
#![tactic(auto)]

use answer::Answer;
use hex_words::cases::whole_cases;
use hex_words::lines::{floats, told};
use hex_words::words::{Word, Words};
use meter::Meter;
use std::io;
use std::io::Write;
use system::read_in;

fn show<W: Write>(answer: Answer, m: Meter, out: &mut W) -> io::Result<()> {
    told(answer, out)?;
    let (count, overs) = (m.count, m.overs);
    write!(out, " {count} {overs}")?;
    floats(&[m.sum_squares, m.least, m.largest], out)?;
    writeln!(out, "")
}

fn meter_of(words: &mut Words<'_>) -> Meter {
    Meter {
        count: words.word(),
        overs: words.word(),
        sum_squares: words.float(),
        least: words.float(),
        largest: words.float(),
    }
}

// The next meter, or the held one where the feeding is refused; either way a line.
fn show_case<W: Write>(case: &[Word; 19], held: Meter, out: &mut W) -> io::Result<Meter> {
    let mut words = Words { rest: case };
    let goes_on = words.word() == 1;
    let given = meter_of(&mut words);
    let before = if goes_on { held } else { given };
    // There is room for 16,385.
    let n = words.word() as usize % 16386;
    let mut src = [1.0f32; 16385];
    words.fill(&mut src[..12]);
    let fed = before.feed(&src[..n]);
    let left = fed.unwrap_or(before);
    show(fed.map(|_| ()), left, out)?;
    Ok(left)
}

fn main(rt: HostRuntime) -> io::Result<()> {
    let mut out = rt.stdout();
    let mut text = [0u8; 65536];
    let cases = whole_cases::<19>(read_in(&mut rt.stdin(), &mut text));
    let mut held = Meter::new();
    for case in cases {
        held = show_case(case, held, &mut out)?;
    }
    let count = cases.len();
    writeln!(out, "{count} cases")
}
