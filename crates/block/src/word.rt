// Numbers of 16 bits in bytes, low byte first, and a block's checks. For the crates above.
ghost use Rattle.std.specs.Prelude.{◌≡◌, ◌+◌, ◌/◌, ◌%◌, ◌<◌, ◌≤◌, length, set};
ghost use Rattle.block.specs.Block.{check_a, check_b};
ghost use Rattle.block.specs.Read.{bytes_from, word_at, checks_ok, blank};

// The number at byte i.
pub fn word_at(block: &[u8], i: usize) -> usize
    requires { i + 1 < length block.now }
    ensures { (result ≡ word_at (bytes_from block.now 0) i) × (result < 65536) }
{
    block[i] as usize + 256 * block[i + 1] as usize
}

// With its place, since it goes into the bytes of a whole table.
pub fn put_word(at: usize, w: u16, bytes: &mut [u8])
    requires { at + 1 < length bytes.old }
    ensures { bytes.new ≡ set (set bytes.old at (w % 256)) (at + 1) (w / 256) }
{
    bytes[at] = (w % 256) as u8;
    bytes[at + 1] = (w / 256) as u8;
}

#[derive(Clone, Copy)]
pub struct Checks {
    pub a: u16,
    pub b: u16,
}

// Both checks of a block, of its first 508 bytes, in one pass.
pub fn sums(block: &[u8]) -> Checks
    requires { 508 ≤ length block.now }
    ensures { (result.a ≡ check_a (bytes_from block.now 0)) × (result.b ≡ check_b (bytes_from block.now 0)) }
{
    let mut a: u32 = 0;
    let mut b: u32 = 0;
    for (i, x) in block[..508].iter().enumerate() {
        let x = *x as u32;
        a += x;
        b += (i as u32 + 1) * x;
    }
    Checks {
        a: (a % 65536) as u16,
        b: (b % 65536) as u16,
    }
}

pub fn checks_ok(block: &[u8]) -> bool
    requires { 512 ≤ length block.now }
    ensures { result ≡ checks_ok (bytes_from block.now 0) }
{
    let c = sums(block);
    word_at(block, 508) == c.a as usize && word_at(block, 510) == c.b as usize
}

// The bytes of a block from its byte `first` up to its checks are zeros.
pub fn is_blank(block: &[u8], first: usize) -> bool
    requires { (512 ≤ length block.now) × (first ≤ 508) }
    ensures { result ≡ blank (bytes_from block.now 0) first }
{
    for x in &block[first..508] {
        if *x != 0 {
            return false;
        }
    }
    true
}
