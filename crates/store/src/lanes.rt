// Samples of one byte or of two, each a number of its own width: what reads them is written once, for both.
ghost use Rattle.std.specs.Prelude.{◌≡◌, Bool, true, false, ℕ, ◌<◌, min, max, ltb, length, get_or, set};
ghost use Rattle.store.specs.Store.{samples_of, spare_samples};

use crate::{pair_at, put_pair};

pub trait Sample: Copy {
    // Whether a sample has two bytes.
    ghost wide: { Bool };

    // The number that it is.
    ghost value: { Self → ℕ };

    // A sample has two bytes.
    fn is_wide() -> bool
        ensures { result ≡ wide };

    // How many samples a buffer holds.
    fn count(s: &[u8]) -> usize
        ensures { result ≡ length (samples_of wide s.now) };

    // The sample at a place.
    fn at(s: &[u8], i: usize) -> Self
        requires { i < length (samples_of wide s.now) }
        ensures { value result ≡ get_or (samples_of wide s.now) i 0 };

    // Stores a sample at a place.
    fn put(s: &mut [u8], i: usize, v: Self)
        requires { i < length (samples_of wide s.old) }
        ensures { (samples_of wide s.new ≡ set (samples_of wide s.old) i (value v)) × (spare_samples wide s.new ≡ spare_samples wide s.old) };

    // The number that it is, whatever its width.
    fn number(self) -> u16
        ensures { result ≡ value self };

    // It is less than the other.
    fn is_below(self, other: Self) -> bool
        ensures { result ≡ ltb (value self) (value other) };

    // The lesser of the two.
    fn lesser(self, other: Self) -> Self
        ensures { value result ≡ min (value self) (value other) };

    // The greater of the two.
    fn greater(self, other: Self) -> Self
        ensures { value result ≡ max (value self) (value other) };
}

impl Sample for u8 {
    ghost wide = { false };

    ghost value = { λ n. n };

    fn is_wide() -> bool {
        false
    }

    fn count(s: &[u8]) -> usize {
        s.len()
    }

    fn at(s: &[u8], i: usize) -> u8 {
        s[i]
    }

    fn put(s: &mut [u8], i: usize, v: u8) {
        s[i] = v;
    }

    fn number(self) -> u16 {
        u16::from(self)
    }

    fn is_below(self, other: u8) -> bool {
        self < other
    }

    fn lesser(self, other: u8) -> u8 {
        self.min(other)
    }

    fn greater(self, other: u8) -> u8 {
        self.max(other)
    }
}

impl Sample for u16 {
    ghost wide = { true };

    ghost value = { λ n. n };

    fn is_wide() -> bool {
        true
    }

    fn count(s: &[u8]) -> usize {
        s.len() / 2
    }

    fn at(s: &[u8], i: usize) -> u16 {
        pair_at(s, i)
    }

    fn put(s: &mut [u8], i: usize, v: u16) {
        put_pair(s, i, v);
    }

    fn number(self) -> u16 {
        self
    }

    fn is_below(self, other: u16) -> bool {
        self < other
    }

    fn lesser(self, other: u16) -> u16 {
        self.min(other)
    }

    fn greater(self, other: u16) -> u16 {
        self.max(other)
    }
}
