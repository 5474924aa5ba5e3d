// normalize.rs: output[i] = (input[i] - pre_scale_bias) * scale * element_scale[i] + bias + element_bias[i].
#![tactic(auto)]

ghost use Rattle.std.specs.Prelude.{◌≡◌, is_some, length};
ghost use Rattle.answer.specs.Answer.{told_of};
ghost use Rattle.normalize.specs.Normalize.{list_of, in_place_told, in_place_out, normalize_told, normalize_out};
ghost use Rattle.normalize.specs.Scaling.{Fits, results_by};

mod judging;
mod scaling;

use crate::judging::judge;
use crate::scaling::Scaling;
use answer::{Answer, Refusal};

#[derive(Clone, Copy)]
pub struct Settings {
    pub pre_scale_bias: f32,
    pub scale: f32,
    pub bias: f32,
}

fn fill(by: Scaling, src: &[f32], dst: &mut [f32])
    requires same { length src.now ≡ length dst.old }
    requires fits { Fits by (length src.now) }
    ensures { dst.new ≡ results_by by.entry src.now }
{
    for (i, x) in src.iter().enumerate() {
        dst[i] = by.at(i, *x);
    }
}

// Beside `fill`, since one slice can't be lent for reading and for writing at once.
fn fill_in_place(by: Scaling, buf: &mut [f32])
    requires { Fits by (length buf.old) }
    ensures { buf.new ≡ results_by by.entry buf.old }
{
    for (i, x) in buf.iter_mut().enumerate() {
        *x = by.at(i, *x);
    }
}

// From one slice into another, with a scale and a bias of each element where they are given.
// Nothing is written before the last result is known to be a number.
pub fn normalize(
    settings: Settings,
    element_scale: Option<&[f32]>,
    element_bias: Option<&[f32]>,
    src: &[f32],
    dst: &mut [f32],
) -> Answer
    ensures told { told_of result
        ≡ normalize_told settings (is_some element_scale.entry) (list_of element_scale.entry)
        (is_some element_bias.entry) (list_of element_bias.entry) src.now dst.old }
    ensures written { dst.new
        ≡ normalize_out settings (is_some element_scale.entry) (list_of element_scale.entry)
        (is_some element_bias.entry) (list_of element_bias.entry) src.now dst.old }
{
    if src.len() != dst.len() {
        return Err(Refusal::Length);
    }
    let by = Scaling {
        settings,
        element_scale,
        element_bias,
    };
    judge(&by, src)?;
    fill(by, src, dst);
    Ok(())
}

// In place, by the same results and refusals: a C call of its own.
pub fn normalize_in_place(
    settings: Settings,
    element_scale: Option<&[f32]>,
    element_bias: Option<&[f32]>,
    buf: &mut [f32],
) -> Answer
    ensures told { told_of result
        ≡ in_place_told settings (is_some element_scale.entry) (list_of element_scale.entry)
        (is_some element_bias.entry) (list_of element_bias.entry) buf.old }
    ensures written { buf.new
        ≡ in_place_out settings (is_some element_scale.entry) (list_of element_scale.entry)
        (is_some element_bias.entry) (list_of element_bias.entry) buf.old }
{
    let by = Scaling {
        settings,
        element_scale,
        element_bias,
    };
    judge(&by, buf)?;
    fill_in_place(by, buf);
    Ok(())
}
