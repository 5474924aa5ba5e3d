// So many parts over the bands, in the shares of whole numbers. For the split.
#![tactic(auto)]

ghost use Rattle.std.specs.Prelude.{◌≡◌, ◌<◌, ◌≤◌, length};
ghost use Rattle.lists.specs.Lists.{sum_to, tab};
ghost use Rattle.parts.specs.Parts.{total, share, most, key, above_in, gains_over};

const MOST: usize = 64;

const LAST: usize = MOST - 1;

fn sum(a: &[u32]) -> u64
    requires { length a.now ≤ most }
    ensures { result ≡ total a.now }
{
    a.iter().map(|x| u64::from(*x)).sum()
}

// How many keys are above that of band i. (A sum with no branch, which runs in lanes: a filter and its count took twice the time.)
fn rank(keys: &[u64], i: usize) -> u64
    requires { i < length keys.now }
    ensures { result ≡ sum_to (above_in keys.now i) (length keys.now) }
{
    let own = keys[i];
    let mut above: u64 = 0;
    for key in keys {
        above += u64::from(own < *key);
    }
    above
}

// Stores the whole part and the key of each band, and returns the sum of the whole parts. (The gains are the caller's: pairs would be copied back.)
fn whole(parts: u64, a: &[u32], keys: &mut [u64], gains: &mut [u16]) -> u64
    requires lengths { (length a.now ≤ most) × (length keys.old ≡ length a.now) × (length gains.old ≡ length a.now) }
    requires some { (0 < total a.now) × (parts < 65535) }
    ensures used { result ≡ sum_to (share parts a.now) (length a.now) }
    ensures keys { keys.new ≡ tab (key parts a.now) (length a.now) }
    ensures gains { gains.new ≡ tab (share parts a.now) (length a.now) }
{
    let t = sum(a);
    let mut used: u64 = 0;
    for (i, steps) in a.iter().enumerate() {
        let x = parts * u64::from(*steps);
        let q = x / t;
        keys[i] = MOST as u64 * (x % t) + (LAST - i) as u64;
        gains[i] = q as u16;
        used += q;
    }
    used
}

// The gains of the bands, by their steps: the whole parts, and one more where the rank is below the parts left over.
pub fn part(parts: u64, a: &[u32], gains: &mut [u16])
    requires { (length a.now ≤ most) × (length gains.old ≡ length a.now) × (0 < total a.now) × (parts < 65535) }
    ensures { gains.new ≡ gains_over parts a.now }
{
    let mut room = [0u64; MOST];
    let keys = &mut room[..a.len()];
    let left = parts - whole(parts, a, keys, gains);
    for (i, gain) in gains.iter_mut().enumerate() {
        *gain += u16::from(rank(keys, i) < left);
    }
}
