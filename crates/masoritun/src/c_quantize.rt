// Quantize to u8.
ghost use Rattle.std.specs.Prelude.{◌≡◌};
ghost use Rattle.pack.specs.Pack.{packed};
ghost use Rattle.quantize.specs.Quantize.{quantize_told, quantize_out};

use pack::pack;

#[unsafe(no_mangle)]
pub extern "C" fn mst_quantize(inv_scale: f32, zero_point: u8, src: &[f32], dst: &mut [u8]) -> u64
    ensures told { result ≡ packed (quantize_told inv_scale src.now dst.old) }
    ensures written { dst.new ≡ quantize_out inv_scale zero_point src.now dst.old }
{
    pack(quantize::quantize(inv_scale, zero_point, src, dst))
}
