// Runs both softmax calls on stored lists and compares with the stored outputs of the Rust text over one lane.
// A case is flush, n, n elements and n outputs.
#![tactic(auto)]

use hex_words::cases::replay;
use hex_words::words::Words;
use softmax::{softmax, softmax_in_place};
use std::io;

const ROOM: usize = 32;

// Whether both calls give the stored outputs. A case of more elements than there is room for counts as one that differs.
fn agrees(words: &mut Words<'_>) -> bool {
    let [flush, n] = words.take::<2>();
    let n = n as usize;
    let (elements, outputs) = (words.part(n), words.part(n));
    if n > ROOM {
        return false;
    }
    // 7, so that what is not written shows.
    let (mut src, mut written) = ([0.0f32; ROOM], [7.0f32; ROOM]);
    let (buf, dst) = (&mut src[..n], &mut written[..n]);
    elements.fill(buf);
    softmax(flush != 0, buf, dst).is_ok()
        && softmax_in_place(flush != 0, buf).is_ok()
        && outputs.same(dst)
        && outputs.same(buf)
}

fn main(rt: HostRuntime) -> io::Result<()> {
    replay(&mut rt.stdin(), agrees, &mut rt.stdout())
}
