// Samples and words in lent memory: samples of one byte or of two, words in a list of numbers or in four bytes each. All bytes are little-endian.
#![tactic(auto)]

mod lanes;
mod places;

ghost use Rattle.std.specs.Prelude.{◌≡◌, ◌+◌, ◌*◌, ◌<◌, length, get_or, set};
ghost use Rattle.store.specs.Store.{pairs, fours, spare_of};

use block::{num2_at, num4_at, put2, put4};
pub use lanes::Sample;
pub use places::Place;

// The two-byte sample at a place.
pub fn pair_at(s: &[u8], i: usize) -> u16
    requires { i < length (pairs s.now) }
    ensures { result ≡ get_or (pairs s.now) i 0 }
{
    num2_at(s, 2 * i) as u16
}

// Stores a two-byte sample at a place.
pub fn put_pair(s: &mut [u8], i: usize, v: u16)
    requires { i < length (pairs s.old) }
    ensures { (pairs s.new ≡ set (pairs s.old) i v) × (spare_of 2 s.new ≡ spare_of 2 s.old) }
{
    put2(s, 2 * i, v as u32);
}

// The four-byte word at a place.
fn four_at(s: &[u8], i: usize) -> u32
    requires { i < length (fours s.now) }
    ensures { result ≡ get_or (fours s.now) i 0 }
{
    num4_at(s, 4 * i)
}

// Stores a four-byte word at a place.
fn put_four(s: &mut [u8], i: usize, u: u32)
    requires { i < length (fours s.old) }
    ensures { (fours s.new ≡ set (fours s.old) i u) × (spare_of 4 s.new ≡ spare_of 4 s.old) }
{
    put4(s, 4 * i, u);
}
