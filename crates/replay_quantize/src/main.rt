// Runs quantize on stored lists and compares with the stored codes, of the Rust text over one lane for products to 2^30 and of
// the reference, which is made from docs/RULES.md, beyond.
// A case is inv_scale, zero_point, n, n elements and n codes.
#![tactic(auto)]

use floats::bits::from_pattern;
use hex_words::cases::replay;
use hex_words::words::Words;
use quantize::quantize;
use std::io;

const ROOM: usize = 16;

// Whether the codes are the first words.
fn same_codes(mut words: Words<'_>, codes: &[u8]) -> bool {
    codes.iter().all(|code| u32::from(*code) == words.word())
}

// Whether the list has the stored codes. A case of more elements than there is room for counts as one that differs.
fn agrees(words: &mut Words<'_>) -> bool {
    let [inv_scale, zero_point, n] = words.take::<3>();
    let n = n as usize;
    let (elements, codes) = (words.part(n), words.part(n));
    let Ok(zero_point) = u8::try_from(zero_point) else {
        return false;
    };
    if n > ROOM {
        return false;
    }
    // 7, so that what is not written shows.
    let (mut room, mut written) = ([0.0f32; ROOM], [7u8; ROOM]);
    let (src, dst) = (&mut room[..n], &mut written[..n]);
    elements.fill(src);
    quantize(from_pattern(inv_scale), zero_point, src, dst).is_ok() && same_codes(codes, dst)
}

fn main(rt: HostRuntime) -> io::Result<()> {
    replay(&mut rt.stdin(), agrees, &mut rt.stdout())
}
