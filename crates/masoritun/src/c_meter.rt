// One feeding of a meter whose five numbers the caller keeps. A refusal leaves them.
ghost use Rattle.std.specs.Prelude.{◌≡◌};
ghost use Rattle.pack.specs.Pack.{packed};
ghost use Rattle.masoritun.specs.Masoritun.{meter_at, left_of};
ghost use Rattle.meter.specs.Meter.{feed_of, fed_told};

use meter::Meter;
use pack::pack;

#[unsafe(no_mangle)]
pub extern "C" fn mst_meter_feed(
    count: &mut u32,
    overs: &mut u32,
    sum_squares: &mut f32,
    least: &mut f32,
    largest: &mut f32,
    src: &[f32],
) -> u64
    ensures told { result ≡ packed (fed_told (feed_of (meter_at count.old overs.old sum_squares.old least.old largest.old) src.now)).0 }
    ensures left { meter_at count.new overs.new sum_squares.new least.new largest.new
        ≡ left_of (meter_at count.old overs.old sum_squares.old least.old largest.old) src.now }
{
    let held = Meter {
        count: *count,
        overs: *overs,
        sum_squares: *sum_squares,
        least: *least,
        largest: *largest,
    };
    match held.feed(src) {
        Ok(next) => {
            *count = next.count;
            *overs = next.overs;
            *sum_squares = next.sum_squares;
            *least = next.least;
            *largest = next.largest;
            0
        }
        Err(why) => pack(Err(why)),
    }
}
