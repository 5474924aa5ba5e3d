// The cases of a text.
ghost use Rattle.std.specs.Prelude.{◌*◌, ◌<◌, ◌≤◌, length, IfOk};

use crate::lines::{closing, differs};
use crate::words::{Word, Words, words_of};
use std::io;
use std::io::{Read, Write};
use system::read_in;

// The cases of N words each; what is left of the text is none.
pub fn whole_cases<const N: usize>(text: &[u8]) -> &[[Word; N]]
    requires { 0 < N }
    ensures { N * length result.now ≤ length text.now }
{
    words_of(text).as_chunks::<N>().0
}

// The words of one of them.
pub fn values<const N: usize>(case: &[Word; N]) -> [u32; N] {
    Words { rest: case }.take()
}

// Runs f on each case of a text, with its number and the words from its first on, which f moves past the case. Answers how many cases there are.
pub fn each_case<F>(text: &[u8], mut f: F) -> io::Result<usize>
where
    F: FnMut(usize, &mut Words<'_>) -> io::Result<()>,
    requires { F.IsAlwaysCallable f }
    ensures { IfOk result (λ n. n ≤ length text.now) }
{
    let mut words = Words {
        rest: words_of(text),
    };
    // A case has a word at least.
    let most = words.rest.len();
    for case in 0..most {
        if words.rest.is_empty() {
            return Ok(case);
        }
        f(case, &mut words)?;
    }
    Ok(most)
}

// Replays the cases of a text: a line for each that does not agree, and the closing line.
fn replay_text<F, W>(text: &[u8], mut agrees: F, out: &mut W) -> io::Result<()>
where
    F: FnMut(&mut Words<'_>) -> bool,
    W: Write,
    requires { (f : F) (x : _) → F.pre f x }
{
    let mut differ = 0usize;
    let cases = each_case(text, |case, words| {
        if !agrees(words) {
            differs(case, out)?;
            differ = differ.saturating_add(1);
        }
        Ok(())
    })?;
    closing(cases, differ, out)
}

// The same for the text that a reader gives.
pub fn replay<R, F, W>(from: &mut R, agrees: F, out: &mut W) -> io::Result<()>
where
    R: Read,
    F: FnMut(&mut Words<'_>) -> bool,
    W: Write,
    requires { (f : F) (x : _) → F.pre f x }
{
    let mut text = [0u8; 65536];
    replay_text(read_in(from, &mut text), agrees, out)
}
