// Runs both normalize calls on stored cases of three elements, also those that are refused with 3, 4 and 6.
// A case is pre_scale_bias, scale, bias, has_scale, has_bias, three scales, three biases and three elements. A line is number, place
// and the three words afterwards, of the call from slice to slice and of the call in place; tools/normalize_cases.py makes both files.
#![tactic(auto)]

use answer::Answer;
use hex_words::cases::each_case;
use hex_words::lines::{floats, told};
use hex_words::words::Words;
use normalize::{Settings, normalize, normalize_in_place};
use std::io;
use std::io::Write;
use system::read_in;

fn show<W: Write>(answer: Answer, left: &[f32], out: &mut W) -> io::Result<()> {
    told(answer, out)?;
    floats(left, out)?;
    writeln!(out, "")
}

fn three(words: &mut Words<'_>) -> [f32; 3] {
    [words.float(), words.float(), words.float()]
}

fn show_case<W: Write>(words: &mut Words<'_>, out: &mut W) -> io::Result<()> {
    let settings = Settings {
        pre_scale_bias: words.float(),
        scale: words.float(),
        bias: words.float(),
    };
    let (has_scale, has_bias) = (words.word() != 0, words.word() != 0);
    let (scales, biases) = (three(words), three(words));
    let element_scale = if has_scale {
        Some(scales.as_slice())
    } else {
        None
    };
    let element_bias = if has_bias {
        Some(biases.as_slice())
    } else {
        None
    };
    let mut buf = three(words);
    // 7, so that what is not written shows.
    let mut dst = [7.0f32; 3];
    let answer = normalize(settings, element_scale, element_bias, &buf, &mut dst);
    show(answer, &dst, out)?;
    let in_place = normalize_in_place(settings, element_scale, element_bias, &mut buf);
    show(in_place, &buf, out)
}

fn main(rt: HostRuntime) -> io::Result<()> {
    let mut out = rt.stdout();
    let mut text = [0u8; 65536];
    let text = read_in(&mut rt.stdin(), &mut text);
    each_case(text, |_, words| show_case(words, &mut out))?;
    Ok(())
}
