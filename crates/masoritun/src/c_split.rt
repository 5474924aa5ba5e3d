// The split of band levels into gains.
ghost use Rattle.std.specs.Prelude.{◌≡◌};
ghost use Rattle.pack.specs.Pack.{packed};
ghost use Rattle.split.specs.Split.{split_told, split_out};

use pack::pack;

#[unsafe(no_mangle)]
pub extern "C" fn mst_split(levels: &[f32], gains: &mut [u16]) -> u64
    ensures told { result ≡ packed (split_told levels.now gains.old) }
    ensures written { gains.new ≡ split_out levels.now gains.old }
{
    pack(split::split(levels, gains))
}
