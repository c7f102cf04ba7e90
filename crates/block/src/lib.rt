// Blocks of a file: numbers as bytes, and the check.
#![tactic(auto)]

ghost use Rattle.std.specs.Prelude.{◌≡◌, ◌+◌, ◌%◌, ◌<◌, ◌≤◌, ◌++◌, length, take, drop, ◌==◌};
ghost use Rattle.block.specs.Block.{le2, le4, num2, num4, rotate, stir, check, pad, block};

// The bytes of a block.
pub const BLOCK: usize = 512;

// The payload bytes of a block, before its check.
pub const PAYLOAD: usize = 508;

// The 32 bits rotated left by one.
pub fn rotate(s: u32) -> u32
    ensures { result ≡ rotate s }
{
    s.rotate_left(1)
}

// The sum with one byte more.
pub fn stir(s: u32, b: u8) -> u32
    ensures { result ≡ stir s b }
{
    rotate(s).wrapping_add(u32::from(b))
}

// The sum that a block of this number starts with.
fn start(number: usize) -> u32
    ensures { result ≡ number % 4294967296 }
{
    (number % 4294967296) as u32
}

// The check of a payload in the block of this number.
pub fn check_of(number: usize, payload: &[u8]) -> u32
    ensures { result ≡ check number payload.now }
{
    payload.iter().fold(start(number), |s, b| stir(s, *b))
}

// The checks of two blocks.
#[derive(Clone, Copy)]
pub struct Sums {
    pub first: u32,
    pub second: u32,
}

// The checks of two payloads of one length. Each step of a sum waits for the one before, so two sums at once take little longer than one.
pub fn check_two(m: usize, a: &[u8], n: usize, b: &[u8]) -> Sums
    requires { length a.now ≡ length b.now }
    ensures { (result.first ≡ check m a.now) × (result.second ≡ check n b.now) }
{
    let mut first = start(m);
    let mut second = start(n);
    for (x, y) in a.iter().zip(b) {
        first = stir(first, *x);
        second = stir(second, *y);
    }
    Sums { first, second }
}

// The number of the two little-endian bytes at a place.
pub fn num2_at(s: &[u8], i: usize) -> u32
    requires { i + 2 ≤ length s.now }
    ensures { (result ≡ num2 s.now i) × (result < 65536) }
{
    u32::from(u16::from_le_bytes([s[i], s[i + 1]]))
}

// The number of the four little-endian bytes at a place.
pub fn num4_at(s: &[u8], i: usize) -> u32
    requires { i + 4 ≤ length s.now }
    ensures { result ≡ num4 s.now i }
{
    u32::from_le_bytes([s[i], s[i + 1], s[i + 2], s[i + 3]])
}

// The number as two little-endian bytes at a place.
pub fn put2(s: &mut [u8], i: usize, n: u32)
    requires { i + 2 ≤ length s.old }
    ensures { s.new ≡ take i s.old ++ le2 n ++ drop (i + 2) s.old }
{
    let bytes = n.to_le_bytes();
    s[i..i + 2].copy_from_slice(&bytes[..2]);
}

// The number as four little-endian bytes at a place.
pub fn put4(s: &mut [u8], i: usize, n: u32)
    requires { i + 4 ≤ length s.old }
    ensures { s.new ≡ take i s.old ++ le4 n ++ drop (i + 4) s.old }
{
    s[i..i + 4].copy_from_slice(&n.to_le_bytes());
}

// A block whose payload ends at a place: zeros after it, then the check.
// A block is a part of a lent file, cut by a range, so it is a slice whose length a clause says.
pub fn close(s: &mut [u8], from: usize, number: usize)
    requires { (from ≤ 508) × (length s.old ≡ 512) }
    ensures { s.new ≡ block number (pad (take from s.old)) }
{
    s[from..PAYLOAD].fill(0);
    let sum = check_of(number, &s[0..PAYLOAD]);
    put4(s, PAYLOAD, sum);
}

// Two blocks one after the other, each with its payload in place: their checks.
pub fn close_two(s: &mut [u8], number: usize)
    requires { (length s.old ≡ 1024) × (number < 4294967296) }
    ensures { s.new ≡ block number (take 508 s.old) ++ block (number + 1) (take 508 (drop 512 s.old)) }
{
    let two = check_two(
        number,
        &s[0..PAYLOAD],
        number + 1,
        &s[BLOCK..BLOCK + PAYLOAD],
    );
    put4(s, PAYLOAD, two.first);
    put4(s, BLOCK + PAYLOAD, two.second);
}

// The block's check is right.
pub fn check_fits(s: &[u8], number: usize) -> bool
    requires { length s.now ≡ 512 }
    ensures { result ≡ (num4 s.now 508 == check number (take 508 s.now)) }
{
    num4_at(s, PAYLOAD) == check_of(number, &s[0..PAYLOAD])
}
