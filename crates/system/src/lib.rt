// What the programs have of the system: bytes to read, two writers, files by name and arguments. All of it in lent buffers.
#![tactic(auto)]

ghost use Rattle.std.specs.Prelude.{◌≡◌, ◌≤◌, length, take, IfSome};
ghost use Rattle.io.specs.Counts.{IsPrefixLen};
ghost use Rattle.std.specs.Io.KnownBytes.{Consumes};

use std::env::FillError;
use std::fs::File;
use std::io::{ErrorKind, Read, Write};
use std::rt::{Env, Files};
use std::{io, str};

// Where a program writes: its text, and beside it what it has to tell.
#[derive(Drop)]
pub struct Streams<W, E> {
    pub out: W,
    pub errors: E,
}

// Reads until buf is full, the input ends or a read fails, and answers how many bytes stand at the start of buf.
pub fn read_full<R: Read>(from: &mut R, buf: &mut [u8]) -> usize
    ensures prefix { IsPrefixLen result buf.new }
    ensures bytes { Consumes (R.remaining from.old) (R.remaining from.new) (take result buf.new) }
{
    // A read may give any part of what is left, so there are no chunks to go over.
    let mut done = 0;
    while done < buf.len() {
        match from.read(&mut buf[done..]) {
            Ok(0) | Err(_) => break,
            Ok(n) => done += n,
        }
    }
    done
}

// The same, and answers those bytes.
pub fn read_in<'a, R: Read>(from: &mut R, buf: &'a mut [u8]) -> &'a [u8]
    ensures length { length result.now ≤ length buf.old }
    ensures bytes { Consumes (R.remaining from.old) (R.remaining from.new) result.now }
{
    let n = read_full(from, buf);
    &buf[..n]
}

fn tell_line<E: Write>(name: &[u8], why: &io::Error, errors: &mut E) -> io::Result<()> {
    errors.write_all(name)?;
    writeln!(errors, ": {why}")
}

// A line with a name and the reason of a failure. Where that cannot be written either, nobody is left to tell.
pub fn tell<E: Write>(name: &[u8], why: &io::Error, errors: &mut E) {
    let _ = tell_line(name, why, errors);
}

// Opens a file to read it. A path of the standard library is text, so a name that is none opens no file.
pub fn open<F: Files>(files: &F, path: &[u8]) -> io::Result<F::File> {
    let Ok(name) = str::from_utf8(path) else {
        return Err(io::Error::from(ErrorKind::InvalidFilename));
    };
    File::open(files, name)
}

// Whether there is an argument at this place; the program's name is at 0.
pub fn is_given<V: Env>(arguments: &V, place: usize) -> bool {
    let mut first = [0u8; 1];
    !matches!(arguments.arg(place, &mut first), Err(FillError::NotPresent))
}

// The argument at this place, put at the start of buf; none where there is none or it is longer than buf.
pub fn argument_at<'a, V: Env>(arguments: &V, place: usize, buf: &'a mut [u8]) -> Option<&'a [u8]>
    ensures { IfSome result (λ text. length text.now ≤ length buf.old) }
{
    let n = arguments.arg(place, buf).ok()?;
    Some(&buf[..n])
}

// The one argument; none where there is not just one or it is longer than buf.
pub fn only_argument<'a, V: Env>(arguments: &V, buf: &'a mut [u8]) -> Option<&'a [u8]>
    ensures { IfSome result (λ text. length text.now ≤ length buf.old) }
{
    if is_given(arguments, 2) {
        return None;
    }
    argument_at(arguments, 1, buf)
}
