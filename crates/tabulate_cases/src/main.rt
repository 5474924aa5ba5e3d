// Tabulates levels in data/: its arguments are a file's name and the word for the bands, in turn. For each two of them it writes a line
// with both, then the table's bytes or the line of the refusal, and last the number of cases. tools/tabulate_cases.py makes all files.
#![tactic(auto)]

ghost use Rattle.std.specs.Prelude.{◌<◌};

use std::io;
use std::io::Write;
use std::rt::{Env, Files};
use system::{Streams, argument_at, is_given, open, tell};
use tabulate_io::run;

fn name<W: Write>(path: &[u8], word: &[u8], out: &mut W) -> io::Result<()> {
    out.write_all(path)?;
    out.write_all(b" ")?;
    out.write_all(word)?;
    out.write_all(b"\n")
}

// The refusals go where the table goes.
fn show<F: Files, W: Write, E: Write>(
    files: &F,
    path: &[u8],
    word: &[u8],
    refusals: &mut W,
    to: &mut Streams<W, E>,
) -> io::Result<()> {
    match open(files, path) {
        Ok(mut from) => {
            name(path, word, &mut to.out)?;
            run(&mut from, word, refusals, to);
        }
        Err(why) => tell(path, &why, &mut to.errors),
    }
    Ok(())
}

fn case<R: Files + Env, W: Write, E: Write>(
    rt: &R,
    place: usize,
    refusals: &mut W,
    to: &mut Streams<W, E>,
) -> io::Result<()>
    requires { place < 18446744073709551615 }
{
    let (mut path, mut word) = ([0u8; 4096], [0u8; 4096]);
    let path = argument_at(rt, place, &mut path).unwrap_or(b"");
    let word = argument_at(rt, place + 1, &mut word).unwrap_or(b"");
    show(rt, path, word, refusals, to)
}

// How many arguments there are, the program's name too.
fn arg_count<V: Env>(arguments: &V) -> usize {
    (0..usize::MAX)
        .find(|place| !is_given(arguments, *place))
        .unwrap_or(usize::MAX)
}

fn main(rt: HostRuntime) -> io::Result<()> {
    let mut to = Streams {
        out: rt.stdout(),
        errors: rt.stderr(),
    };
    let cases = arg_count(&rt) / 2;
    for i in 0..cases {
        case(&rt, i * 2 + 1, &mut rt.stdout(), &mut to)?;
    }
    writeln!(to.out, "{cases} cases")
}
