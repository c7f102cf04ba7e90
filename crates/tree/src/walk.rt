// The walk over the ranks that decides parents and writes the entries.
ghost use Rattle.std.specs.Prelude.{◌≡◌, ◌++◌, ◌-◌, ◌/◌, ◌%◌, ◌≤◌, ◌<◌, length, get_or, drop};
ghost use Rattle.tally.specs.Tally.{odd, build};
ghost use Rattle.matte.specs.Layout.{eight};
ghost use Rattle.matte.specs.Picture.{picture};
ghost use Rattle.enclosure.specs.Tree.{line_count, entry};
ghost use Rattle.enclosure.proofs.Notes.{Noted};
ghost use Rattle.tree.specs.Note.{note_for};
ghost use Rattle.tree.specs.Walk.{parent_at, decided, WalkReady};

use crate::note::{LEAD, LOWER, STRAIGHT};
use crate::rank::crossings_of;

// The parent's number + 1 of the line whose lead has rank r, from the crossing before it; 0 for a root.
fn parent_at(words: &[u32], r: usize, places: &[u32]) -> u32
    requires { (r ≤ length words.now) × (0 < r → get_or words.now (r - 1) 0 % 536870912 < length places.now) }
    ensures { (result ≡ parent_at words.now r places.now) × (result < 2147483648) }
{
    if r == 0 {
        return 0;
    }
    let y = words[r - 1];
    let m = y % STRAIGHT;
    if y & STRAIGHT != 0 {
        return m + 1;
    }
    places[m as usize] % LOWER
}

// At the rank r: a lead's line gets its entry.
fn decide(words: &[u32], r: usize, places: &mut [u32])
    requires { (r < length words.now) × (get_or words.now r 0 % 536870912 < length places.old) × (0 < r → get_or words.now (r - 1) 0 % 536870912 < length places.old) }
    ensures { places.new ≡ decided words.now r places.old }
{
    let x = words[r];
    if x & LEAD != 0 {
        let p = parent_at(words, r, places);
        places[(x % STRAIGHT) as usize] = p + (x & LOWER);
    }
}

// All ranks, one after the other.
pub fn walk(px: &[u8], w: usize, h: usize, ks: &[u8], words: &[u32], places: &mut [u32])
    requires { (WalkReady (picture w h px.now) ks.now words.now places.old) × (Noted eight (picture w h px.now) ks.now (note_for (picture w h px.now) ks.now) (line_count eight (picture w h px.now) ks.now) 0 words.now) }
    ensures { places.new ≡ build (entry eight (picture w h px.now) ks.now) 0 (line_count eight (picture w h px.now) ks.now) ++ drop (line_count eight (picture w h px.now) ks.now) places.old }
{
    let total = crossings_of(px, w, h, ks);
    for r in 0..total {
        decide(words, r, places);
    }
}
