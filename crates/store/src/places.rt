// Word places: a list of numbers, one to a word, or a buffer of bytes, four to a word.
ghost use Rattle.std.specs.Prelude.{◌≡◌, true, false, List, [], ℕ, ◌<◌, length, get_or, set};
ghost use Rattle.store.specs.Store.{places_of};

use crate::{four_at, put_four};

// What the places are made of.
pub trait Place: Copy {
    // The words that they hold.
    ghost words: { List Self → List ℕ };

    // How many words there are.
    fn count(s: &[Self]) -> usize
        ensures { result ≡ length (words s.now) };

    // The word at a place.
    fn get(s: &[Self], i: usize) -> u32
        requires { i < length (words s.now) }
        ensures { result ≡ get_or (words s.now) i 0 };

    // Stores a word at a place.
    fn put(s: &mut [Self], i: usize, u: u32)
        requires { i < length (words s.old) }
        ensures { words s.new ≡ set (words s.old) i u };
}

impl Place for u32 {
    ghost words = { λ s. places_of false s [] };

    fn count(s: &[u32]) -> usize {
        s.len()
    }

    fn get(s: &[u32], i: usize) -> u32 {
        s[i]
    }

    fn put(s: &mut [u32], i: usize, u: u32) {
        s[i] = u;
    }
}

impl Place for u8 {
    ghost words = { λ s. places_of true [] s };

    fn count(s: &[u8]) -> usize {
        s.len() / 4
    }

    fn get(s: &[u8], i: usize) -> u32 {
        four_at(s, i)
    }

    fn put(s: &mut [u8], i: usize, u: u32) {
        put_four(s, i, u);
    }
}
