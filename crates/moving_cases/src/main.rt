// Moves the tables in data/, good and damaged, to both forms: a line with the name; then for each form, with as many bytes lent as it needs and
// with none, number and place of the answer and, where it is done, the moved bytes. Tables and expected output come from tools/moving_cases.py.
#![tactic(auto)]

use answer::limits::TABLE_LIMIT;
use answer::{number, place};
use block::form::Form;
use block::word::word_at;
use moving::{length_in, to_form_1, to_form_2};
use std::fs::File;
use std::io;
use std::io::Write;
use std::rt::Files;
use system::read_in;

const TABLES: [&str; 18] = [
    "one_band",
    "form_1",
    "form_2",
    "last_gain_0",
    "wide_1",
    "wide_2",
    "wide_17",
    "empty",
    "short",
    "few",
    "check",
    "mixed_1",
    "mixed_2",
    "form_3",
    "one_band_2",
    "past",
    "not_whole",
    "unused",
];

fn tell<W: Write>(form: Form, bytes: &[u8], res: &mut [u8], out: &mut W) -> io::Result<()> {
    let answer = match form {
        Form::One => to_form_1(bytes, res),
        Form::Two => to_form_2(bytes, res),
    };
    let (form, number, place) = (form.number(), number(answer), place(answer));
    writeln!(out, "{form} {number} {place}")?;
    if answer.is_ok() {
        out.write_all(res)?;
    }
    Ok(())
}

fn needed(form: Form, bytes: &[u8]) -> usize {
    if bytes.len() < 512 {
        return 0;
    }
    length_in(
        form.number() as u32,
        word_at(bytes, 4) as u32,
        word_at(bytes, 6) as u32,
    )
}

fn show<W: Write>(form: Form, bytes: &[u8], res: &mut [u8], out: &mut W) -> io::Result<()> {
    let n = needed(form, bytes);
    if n <= res.len() {
        tell(form, bytes, &mut res[..n], out)?;
    }
    tell(form, bytes, &mut [], out)
}

fn case<R: Files + Print>(rt: &R, path: &str) -> io::Result<()> {
    let (mut table, mut res) = ([0u8; TABLE_LIMIT], [0u8; TABLE_LIMIT]);
    let mut from = File::open(rt, path)?;
    let mut out = io::writer(rt);
    writeln!(out, "{path}")?;
    let bytes = read_in(&mut from, &mut table);
    show(Form::One, bytes, &mut res, &mut out)?;
    show(Form::Two, bytes, &mut res, &mut out)
}

fn main(rt: HostRuntime) -> io::Result<()> {
    for path in TABLES {
        case(&rt, path)?;
    }
    Ok(())
}
