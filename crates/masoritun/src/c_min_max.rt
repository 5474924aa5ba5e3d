// The extremes. Their numbers are part of the answer: written on every call, +0 where refused.
ghost use Rattle.std.specs.Prelude.{◌≡◌};
ghost use Rattle.pack.specs.Pack.{packed};
ghost use Rattle.min_max.specs.MinMax.{min_max_told, max_num_told, min_num_told};

use crate::value::give;
use pack::pack;

#[unsafe(no_mangle)]
pub extern "C" fn mst_min_max(src: &[f32], least: &mut f32, largest: &mut f32) -> u64
    ensures told { result ≡ packed (min_max_told src.now).0 }
    ensures least { least.new ≡ (min_max_told src.now).1.0 }
    ensures largest { largest.new ≡ (min_max_told src.now).1.1 }
{
    match min_max::min_max(src) {
        Ok(extremes) => {
            *least = extremes.least;
            *largest = extremes.largest;
            0
        }
        Err(why) => {
            *least = 0.0;
            *largest = 0.0;
            pack(Err(why))
        }
    }
}

#[unsafe(no_mangle)]
pub extern "C" fn mst_max_num(src: &[f32], res: &mut f32) -> u64
    ensures told { result ≡ packed (max_num_told src.now).0 }
    ensures value { res.new ≡ (max_num_told src.now).1 }
{
    give(min_max::max_num(src), res)
}

#[unsafe(no_mangle)]
pub extern "C" fn mst_min_num(src: &[f32], res: &mut f32) -> u64
    ensures told { result ≡ packed (min_num_told src.now).0 }
    ensures value { res.new ≡ (min_num_told src.now).1 }
{
    give(min_max::min_num(src), res)
}
