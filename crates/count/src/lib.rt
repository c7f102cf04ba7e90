// How many words the list will have: the crossed edgels of all levels.
#![tactic(auto)]

mod stepped;

ghost use Rattle.std.specs.Prelude.{◌≡◌, Bool, true, false, ℕ, ◌+◌, ◌*◌, ◌-◌, ◌≤◌, ◌<◌, ltb, length, get_or};
ghost use Rattle.tally.specs.Tally.{sum, one, differ};
ghost use Rattle.matte.specs.Layout.{eight, layout_of};
ghost use Rattle.matte.specs.Picture.{picture, levels_fit, most_places};
ghost use Rattle.outline.specs.List.{listed};
ghost use Rattle.refuse.specs.Shape.{Ground};
ghost use Rattle.store.specs.Store.{pairs, samples_of};
ghost use Rattle.count.specs.Count.{crossings, pair, pair_at};

use stepped::by_steps;
pub use stepped::{gap, step_table};
use store::Sample;

// How many of the two edgels from a sample a, to b on its right and c below it, are crossed at k.
fn pair_of<T: Sample>(a: T, b: T, c: T, k: T) -> u8
    ensures { (result ≡ pair (T.value k) (T.value a) (T.value b) (T.value c)) × (result ≤ 2) }
{
    u8::from(k.is_below(a) != k.is_below(b)) + u8::from(k.is_below(a) != k.is_below(c))
}

// The crossed edgels that start at 64 places from `from` on.
fn count_in<T: Sample>(px: &[u8], w: usize, k: T, from: usize) -> u8
    requires { (from + 64 + w ≤ length (samples_of T.wide px.now)) × (1 ≤ w) × (length (samples_of T.wide px.now) ≤ most_places) }
    ensures { (result ≡ sum (λ i. pair_at (samples_of T.wide px.now) w (T.value k) (from + i)) 64) × (result ≤ 128) }
{
    let mut n = 0;
    for i in 0..64 {
        let a = T::at(px, from + i);
        let b = T::at(px, from + i + 1);
        n += pair_of(a, b, T::at(px, from + i + w), k);
    }
    n
}

// The crossed edgels of level k: they all start above the last row.
// Clauses say what a tested picture is: w, h and px stay apart, as in the public calls and in the definition picture.
fn count_level<T: Sample>(px: &[u8], w: usize, h: usize, k: T) -> usize
    requires { (Ground (picture w h (samples_of T.wide px.now))) × (T.value k < (layout_of T.wide).most) }
    ensures { (result ≡ crossings (picture w h (samples_of T.wide px.now)) (T.value k)) × (result ≤ 2 * most_places) }
{
    let end = T::count(px) - w;
    let blocks = end / 64;
    let mut n = 0;
    for b in 0..blocks {
        n += usize::from(count_in(px, w, k, 64 * b));
    }
    for i in 64 * blocks..end {
        let a = T::at(px, i);
        let b = T::at(px, i + 1);
        n += usize::from(pair_of(a, b, T::at(px, i + w), k));
    }
    n
}

// The words of the list, level by level.
fn by_levels<T: Sample>(px: &[u8], w: usize, h: usize, ks: &[u8]) -> usize
    requires { (Ground (picture w h (samples_of T.wide px.now))) × (levels_fit (layout_of T.wide) (samples_of T.wide ks.now) ≡ true) }
    ensures { result ≡ length (listed (layout_of T.wide) (picture w h (samples_of T.wide px.now)) (samples_of T.wide ks.now)) }
{
    let mut n = 0;
    for j in 0..T::count(ks) {
        n += count_level(px, w, h, T::at(ks, j));
    }
    n
}

// The words of the list: with up to three levels level by level, else by steps, in one pass for all levels.
pub fn count_words(px: &[u8], w: usize, h: usize, ks: &[u8]) -> usize
    requires { (Ground (picture w h px.now)) × (levels_fit eight ks.now ≡ true) }
    ensures { result ≡ length (listed eight (picture w h px.now) ks.now) }
{
    if ks.len() < 4 {
        by_levels::<u8>(px, w, h, ks)
    } else {
        by_steps(px, w, h, ks)
    }
}
