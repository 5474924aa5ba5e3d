// Softmax, from one slice into another and in place.
ghost use Rattle.std.specs.Prelude.{◌≡◌};
ghost use Rattle.pack.specs.Pack.{packed};
ghost use Rattle.softmax.specs.Softmax.{softmax_told, softmax_out, in_place_told, in_place_out};

use pack::pack;

#[unsafe(no_mangle)]
pub extern "C" fn mst_softmax(flush: bool, src: &[f32], dst: &mut [f32]) -> u64
    ensures told { result ≡ packed (softmax_told flush src.now dst.old) }
    ensures written { dst.new ≡ softmax_out flush src.now dst.old }
{
    pack(softmax::softmax(flush, src, dst))
}

#[unsafe(no_mangle)]
pub extern "C" fn mst_softmax_in_place(flush: bool, buf: &mut [f32]) -> u64
    ensures told { result ≡ packed (in_place_told flush buf.old) }
    ensures written { buf.new ≡ in_place_out flush buf.old }
{
    pack(softmax::softmax_in_place(flush, buf))
}
