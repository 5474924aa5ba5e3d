// Lists the tables in data/, good and damaged, each after its name, as standard input and as a named file; then two names that no file can be read
// by, and files that change between two readings. Tables and expected lines come from tools/lister_cases.py.
#![tactic(auto)]

use lister_io::{run, run_file, run_twice};
use std::fs::File;
use std::io;
use std::io::Write;
use std::rt::Files;
use system::Streams;

fn say<W: Write, E: Write>(name: &str, to: &mut Streams<W, E>) -> io::Result<()> {
    writeln!(to.out, "{name}")
}

fn case<F: Files, W: Write, E: Write>(
    files: &F,
    path: &str,
    to: &mut Streams<W, E>,
) -> io::Result<()> {
    say(path, to)?;
    let mut from = File::open(files, path)?;
    run(&mut from, to);
    run_file(files, path.as_bytes(), to);
    Ok(())
}

fn unreadable<F: Files, W: Write, E: Write>(
    files: &F,
    path: &str,
    to: &mut Streams<W, E>,
) -> io::Result<()> {
    say(path, to)?;
    run_file(files, path.as_bytes(), to);
    Ok(())
}

fn changed<F: Files, W: Write, E: Write>(
    files: &F,
    first: &str,
    second: &str,
    to: &mut Streams<W, E>,
) -> io::Result<()> {
    say(first, to)?;
    say(second, to)?;
    let mut from = File::open(files, first)?;
    let mut then = File::open(files, second)?;
    run_twice(&mut from, &mut then, to);
    Ok(())
}

// Of 16 bands, of other numbers of bands, and of form 2.
const TABLES: [&str; 36] = [
    "one",
    "two_blocks",
    "full",
    "empty",
    "too_long",
    "short",
    "blocks",
    "check",
    "header",
    "row",
    "unused",
    "wide_17",
    "wide_63",
    "wide_64",
    "wide_65",
    "longer",
    "late",
    "form_2_two",
    "form_2_three",
    "form_2_51",
    "form_2_64",
    "form_2_few",
    "form_2_65",
    "form_2_one_band",
    "form_0",
    "form_3",
    "form_258",
    "form_2_check",
    "form_2_past",
    "form_2_past_later",
    "form_2_mixed",
    "form_1_mixed",
    "form_2_blocks",
    "form_1_blocks",
    "form_2_unused",
    "form_2_unused_gain",
];

const UNREADABLE: [&str; 2] = ["no_such_file", "."];

// What a reading finds first, and what the next one finds.
const CHANGED: [(&str, &str); 9] = [
    ("two_blocks", "changed_row"),
    ("two_blocks", "changed_first"),
    ("two_blocks", "one"),
    ("two_blocks", "cut"),
    ("two_blocks", "empty"),
    ("form_2_three", "form_1_three"),
    ("form_1_three", "form_2_three"),
    ("form_2_three", "form_2_mixed"),
    ("form_1_three", "form_1_mixed"),
];

fn main(rt: HostRuntime) -> io::Result<()> {
    let mut to = Streams {
        out: rt.stdout(),
        errors: rt.stderr(),
    };
    for path in TABLES {
        case(&rt, path, &mut to)?;
    }
    for path in UNREADABLE {
        unreadable(&rt, path, &mut to)?;
    }
    for (first, second) in CHANGED {
        changed(&rt, first, second, &mut to)?;
    }
    Ok(())
}
