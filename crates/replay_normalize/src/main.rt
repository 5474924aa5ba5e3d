// Runs both normalize calls on stored lists and compares with the stored outputs of the Rust text over one lane.
// A case is pre_scale_bias, scale, bias, has_scale, has_bias, n, n scales if has_scale, n biases if has_bias, n elements, n outputs.
#![tactic(auto)]

use hex_words::cases::replay;
use hex_words::words::Words;
use normalize::{Settings, normalize, normalize_in_place};
use std::io;

const ROOM: usize = 16;

// The next n words, where a case has them.
fn part_if<'a>(has: u32, words: &mut Words<'a>, n: usize) -> Option<Words<'a>> {
    if has == 0 {
        return None;
    }
    Some(words.part(n))
}

// dst with the numbers of these words, where a case has them.
fn filled<'a>(part: Option<Words<'_>>, dst: &'a mut [f32]) -> Option<&'a [f32]> {
    part?.fill(dst);
    Some(dst)
}

// Whether both calls give the stored outputs. A case of more elements than there is room for counts as one that differs.
fn agrees(words: &mut Words<'_>) -> bool {
    let settings = Settings {
        pre_scale_bias: words.float(),
        scale: words.float(),
        bias: words.float(),
    };
    let [has_scale, has_bias, n] = words.take::<3>();
    let n = n as usize;
    let (scales, biases) = (part_if(has_scale, words, n), part_if(has_bias, words, n));
    let (elements, outputs) = (words.part(n), words.part(n));
    if n > ROOM {
        return false;
    }
    let (mut scale_room, mut bias_room) = ([0.0f32; ROOM], [0.0f32; ROOM]);
    let element_scale = filled(scales, &mut scale_room[..n]);
    let element_bias = filled(biases, &mut bias_room[..n]);
    // 7, so that what is not written shows.
    let (mut src, mut written) = ([0.0f32; ROOM], [7.0f32; ROOM]);
    let (buf, dst) = (&mut src[..n], &mut written[..n]);
    elements.fill(buf);
    normalize(settings, element_scale, element_bias, buf, dst).is_ok()
        && normalize_in_place(settings, element_scale, element_bias, buf).is_ok()
        && outputs.same(dst)
        && outputs.same(buf)
}

fn main(rt: HostRuntime) -> io::Result<()> {
    replay(&mut rt.stdin(), agrees, &mut rt.stdout())
}
