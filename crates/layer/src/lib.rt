// Painting level by level: the turned edgels of a level are marked, then each row is run along from mark to mark.
#![tactic(auto)]

mod rows;

ghost use Rattle.std.specs.Prelude.{◌≡◌, ℕ, ◌*◌, ◌<◌, ◌≤◌, true, length, take, nat_lt, slice_index};
ghost use Rattle.tally.specs.Tally.{differ};
ghost use Rattle.fill.specs.Filled.{Filled};
ghost use Rattle.matte.specs.Layout.{eight};
ghost use Rattle.matte.specs.Picture.{levels_fit};
ghost use Rattle.edgel.specs.Word.{level_of};
ghost use Rattle.marks.specs.Marks.{bit_at};
ghost use Rattle.layer.specs.Layer.{hits, turned_at, stacked};
ghost use Rattle.layer.specs.Sums.{Layered, Summed};
ghost use Rattle.layer.specs.Group.{Group};

use crate::rows::{add_layer, add_up};
use edgel::{code_of, level_of};
use marks::{clear, flip};
use refuse::Size;

// Turns the mark of the word's edgel over, if the word is horizontal and of level k.
fn mark_word(u: u32, k: u8, m: &mut [u64; 65536])
    ensures { (p : ℕ) → bit_at m.new p ≡ differ (bit_at m.old p) (hits eight k p u) }
{
    let c = code_of(u);
    flip(m, (c / 2) as usize, (level_of(u) == k) & (c % 2 == 0));
}

// The same for all words of a list.
fn mark_words(words: &[u32], k: u8, m: &mut [u64; 65536])
    ensures { (p : ℕ) → bit_at m.new p ≡ differ (bit_at m.old p) (turned_at eight k words.now p) }
{
    for u in words {
        mark_word(*u, k, m);
    }
}

// The same from the word at `from` on, as far as the words are of level k; those before are of lower ones. Answers how far that is.
fn mark_group(words: &[u32], from: usize, k: u8, m: &mut [u64; 65536]) -> usize
    requires { (from ≤ length words.now) × ((i : ℕ) → i < from → level_of eight (slice_index words.now i) < k) }
    ensures { Group eight words.now from k result × ((p : ℕ) → bit_at m.new p ≡ differ (bit_at m.old p) (turned_at eight k (take result words.now) p)) }
{
    for i in from..words.len() {
        let u = words[i];
        if level_of(u) != k {
            return i;
        }
        mark_word(u, k, m);
    }
    words.len()
}

// Adds level k, looking at all words.
// A clause says that the room holds the samples: a type that held the room would have to promise in each contract that it is still the same one.
fn add_level(size: Size, v: u8, k: u8, words: &[u32], m: &mut [u64; 65536], room: &mut [u8])
    requires { size.width * size.height ≤ length room.old }
    ensures { Layered (turned_at eight k words.now) (nat_lt k v) size.width (size.width * size.height) room.old room.new }
{
    clear(m, size.area().div_ceil(64));
    mark_words(words, k, m);
    add_layer(size, m, v, k, room);
}

// Adds level k, looking at the words from the one at a on that are of this level. Answers how far they go.
fn add_group(
    size: Size,
    v: u8,
    k: u8,
    words: &[u32],
    a: usize,
    m: &mut [u64; 65536],
    room: &mut [u8],
) -> usize
    requires { (size.width * size.height ≤ length room.old) × (a ≤ length words.now) × ((i : ℕ) → i < a → level_of eight (slice_index words.now i) < k) }
    ensures { Group eight words.now a k result × Layered (turned_at eight k (take result words.now)) (nat_lt k v) size.width (size.width * size.height) room.old room.new }
{
    clear(m, size.area().div_ceil(64));
    let e = mark_group(words, a, k, m);
    add_layer(size, m, v, k, room);
    e
}

// Adds all levels, looking at all words for each.
fn by_levels(size: Size, v: u8, levels: &[u8], words: &[u32], m: &mut [u64; 65536], room: &mut [u8])
    requires { size.width * size.height ≤ length room.old }
    ensures { Summed (stacked eight size.width v levels.now words.now) (size.width * size.height) room.old room.new }
{
    blank(room, size.area());
    for k in levels {
        add_level(size, v, *k, words, m, room);
    }
}

// Adds all levels, each from where the words of the one before end. Answers how many words were looked at.
fn by_groups(
    size: Size,
    v: u8,
    levels: &[u8],
    words: &[u32],
    m: &mut [u64; 65536],
    room: &mut [u8],
) -> usize
    requires { (levels_fit eight levels.now ≡ true) × (size.width * size.height ≤ length room.old) }
    ensures { (result ≤ length words.now) × Summed (stacked eight size.width v levels.now (take result words.now)) (size.width * size.height) room.old room.new }
{
    blank(room, size.area());
    let mut a = 0;
    for k in levels {
        a = add_group(size, v, *k, words, a, m, room);
    }
    a
}

// Adds all levels: the words grouped by level are looked at once, other words once a level.
fn add_all(size: Size, v: u8, levels: &[u8], words: &[u32], m: &mut [u64; 65536], room: &mut [u8])
    requires { (levels_fit eight levels.now ≡ true) × (size.width * size.height ≤ length room.old) }
    ensures { Summed (stacked eight size.width v levels.now words.now) (size.width * size.height) room.old room.new }
{
    let a = by_groups(size, v, levels, words, m, room);
    if a == words.len() {
        return;
    }
    by_levels(size, v, levels, words, m, room);
}

// Paints all levels.
pub fn add_levels(size: Size, v: u8, levels: &[u8], words: &[u32], room: &mut [u8])
    requires { (levels_fit eight levels.now ≡ true) × (size.width * size.height ≤ length room.old) }
    ensures { Filled (stacked eight size.width v levels.now words.now) room.old (size.width * size.height) room.new }
{
    let mut m = [0u64; 65536];
    add_all(size, v, levels, words, &mut m, room);
    add_up(room, size.area());
}

// Sets the first n samples to 0.
// A twin of trace::clear: this says the fill as Filled, which painting takes, and that as replicate, which the list takes.
fn blank(room: &mut [u8], n: usize)
    requires { n ≤ length room.old }
    ensures { Filled (λ i. 0) room.old n room.new }
{
    room[..n].fill(0);
}
