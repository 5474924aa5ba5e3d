// The words of a text, read in order.
ghost use Rattle.std.specs.Prelude.{◌≡◌, ◌/◌, ◌<◌, length, drop, from_bits};
ghost use Rattle.std.specs.Float.{binary32};
ghost use Rattle.std.specs.Simd.{first_chunks};
ghost use Rattle.hex_words.specs.Words.{digit_of, pair_of, word_of, first_of};

use floats::bits::{from_pattern, pattern};

// A word's bytes: eight digits, and one after them.
pub type Word = [u8; 9];

// A digit's value. No stored text has another byte there, so that it needs no Option.
fn digit(b: u8) -> u8
    ensures value { result ≡ digit_of b }
    ensures small { result < 16 }
{
    match b {
        b'0'..=b'9' => b - b'0',
        b'a'..=b'f' => b - b'a' + 10,
        _ => 0,
    }
}

fn pair(high: u8, low: u8) -> u8
    ensures { result ≡ pair_of high low }
{
    16 * digit(high) + digit(low)
}

pub fn value(word: &Word) -> u32
    ensures { result ≡ word_of word.now }
{
    let [a, b, c, d, e, f, g, h, _] = *word;
    u32::from_be_bytes([pair(a, b), pair(c, d), pair(e, f), pair(g, h)])
}

// All words of a text.
pub fn words_of(text: &[u8]) -> &[Word]
    ensures words { result.now ≡ first_chunks 9 (length text.now / 9) text.now }
    ensures count { length result.now ≡ length text.now / 9 }
{
    text.as_chunks::<9>().0
}

// The words that are still to be read. Past the end each is 0.
#[derive(Clone, Copy)]
pub struct Words<'a> {
    pub rest: &'a [Word],
}

impl<'a> Words<'a> {
    pub fn word(&mut self) -> u32
        ensures value { result ≡ first_of self.old.rest.now }
        ensures rest { self.new.rest.now ≡ drop 1 self.old.rest.now }
    {
        let Some((first, rest)) = self.rest.split_first() else {
            return 0;
        };
        self.rest = rest;
        value(first)
    }

    // The words from here on; goes on past n of them.
    pub fn part(&mut self, n: usize) -> Words<'a>
        ensures part { result.rest.now ≡ self.old.rest.now }
        ensures rest { self.new.rest.now ≡ drop n self.old.rest.now }
    {
        let part = *self;
        self.rest = self.rest.get(n..).unwrap_or(&[]);
        part
    }

    // The next N words.
    pub fn take<const N: usize>(&mut self) -> [u32; N]
        ensures { self.new.rest.now ≡ drop N self.old.rest.now }
    {
        let mut out = [0; N];
        for x in out.iter_mut() {
            *x = self.word();
        }
        out
    }

    // The next word's number.
    pub fn float(&mut self) -> f32
        ensures value { result ≡ from_bits binary32 (first_of self.old.rest.now) }
        ensures rest { self.new.rest.now ≡ drop 1 self.old.rest.now }
    {
        from_pattern(self.word())
    }

    // Fills dst with the first numbers.
    pub fn fill(mut self, dst: &mut [f32])
        ensures { length dst.new ≡ length dst.old }
    {
        for x in dst.iter_mut() {
            *x = self.float();
        }
    }

    // Whether the first numbers are those in src, to the bit.
    pub fn same(mut self, src: &[f32]) -> bool {
        src.iter().all(|x| pattern(*x) == self.word())
    }
}
