// The lines of a replay, and parts of lines.
ghost use Rattle.std.specs.Prelude.{◌++◌, codes, decimal, OnOk};
ghost use Rattle.std.specs.Io.KnownBytes.{Appends};
ghost use Rattle.answer.specs.Answer.{number_of, place_of};

use answer::{Answer, number, place};
use floats::bits::pattern;
use std::io;
use std::io::Write;

// The line of a case that differs.
pub fn differs<W: Write>(case: usize, out: &mut W) -> io::Result<()>
    ensures { OnOk result (Appends (W.contents out.old) (W.contents out.new) (codes "case " ++ (decimal case ++ codes " differs\n"))) }
{
    writeln!(out, "case {case} differs")
}

// The closing line.
pub fn closing<W: Write>(cases: usize, differ: usize, out: &mut W) -> io::Result<()>
    ensures { OnOk result (Appends (W.contents out.old) (W.contents out.new) (decimal cases ++ (codes " cases, " ++ (decimal differ ++ codes " differ\n")))) }
{
    writeln!(out, "{cases} cases, {differ} differ")
}

// An answer's number and place.
pub fn told<W: Write>(a: Answer, out: &mut W) -> io::Result<()>
    ensures { OnOk result (Appends (W.contents out.old) (W.contents out.new) (decimal (number_of a) ++ (codes " " ++ decimal (place_of a)))) }
{
    let (number, place) = (number(a), place(a));
    write!(out, "{number} {place}")
}

// Each number's word, after a space.
pub fn floats<W: Write>(xs: &[f32], out: &mut W) -> io::Result<()> {
    for x in xs {
        let word = pattern(*x);
        write!(out, " {word:08x}")?;
    }
    Ok(())
}
