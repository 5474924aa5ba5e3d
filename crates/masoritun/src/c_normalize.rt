// Normalize, from one slice into another and in place. An absent per-element slice is not looked at.
ghost use Rattle.std.specs.Prelude.{◌≡◌};
ghost use Rattle.masoritun.specs.Masoritun.{settings_at};
ghost use Rattle.pack.specs.Pack.{packed};
ghost use Rattle.normalize.specs.Normalize.{normalize_told, normalize_out, in_place_told, in_place_out, Shows};

use normalize::Settings;
use pack::pack;

// The slice, where the caller says that there is one.
fn present(has: bool, slice: &[f32]) -> Option<&[f32]>
    ensures { Shows result has slice.now }
{
    if has { Some(slice) } else { None }
}

#[unsafe(no_mangle)]
pub extern "C" fn mst_normalize(
    pre_scale_bias: f32,
    scale: f32,
    bias: f32,
    has_scale: bool,
    element_scale: &[f32],
    has_bias: bool,
    element_bias: &[f32],
    src: &[f32],
    dst: &mut [f32],
) -> u64
    ensures told { result
        ≡ packed
        (normalize_told (settings_at pre_scale_bias scale bias) has_scale element_scale.now has_bias element_bias.now
        src.now dst.old) }
    ensures written { dst.new
        ≡ normalize_out (settings_at pre_scale_bias scale bias) has_scale element_scale.now has_bias element_bias.now
        src.now dst.old }
{
    let settings = Settings {
        pre_scale_bias,
        scale,
        bias,
    };
    let scales = present(has_scale, element_scale);
    let biases = present(has_bias, element_bias);
    pack(normalize::normalize(settings, scales, biases, src, dst))
}

#[unsafe(no_mangle)]
pub extern "C" fn mst_normalize_in_place(
    pre_scale_bias: f32,
    scale: f32,
    bias: f32,
    has_scale: bool,
    element_scale: &[f32],
    has_bias: bool,
    element_bias: &[f32],
    buf: &mut [f32],
) -> u64
    ensures told { result
        ≡ packed
        (in_place_told (settings_at pre_scale_bias scale bias) has_scale element_scale.now has_bias element_bias.now
        buf.old) }
    ensures written { buf.new
        ≡ in_place_out (settings_at pre_scale_bias scale bias) has_scale element_scale.now has_bias element_bias.now
        buf.old }
{
    let settings = Settings {
        pre_scale_bias,
        scale,
        bias,
    };
    let scales = present(has_scale, element_scale);
    let biases = present(has_bias, element_bias);
    pack(normalize::normalize_in_place(settings, scales, biases, buf))
}
