// The tree: the parent and the kind of every line of the list.
#![tactic(auto)]

mod leads;
mod note;
mod rank;
mod walk;

ghost use Rattle.std.specs.Prelude.{◌≡◌, ◌≤◌, ◌<◌, length};
ghost use Rattle.matte.specs.Layout.{eight};
ghost use Rattle.matte.specs.Picture.{picture};
ghost use Rattle.refuse.specs.Told.{verdict_of};
ghost use Rattle.outline.specs.List.{list_verdict};
ghost use Rattle.enclosure.specs.Call.{half, tree_verdict, TreeCall};
ghost use Rattle.tree.specs.Made.{TreeMade};

use leads::collect;
use note::note_all;
use rank::crossings_of;
use refuse::{Answer, Reason, Refusal, row_verdict};
use trace::{lean_lines, list_verdict};
use walk::walk;

// The first of the refusals 1 to 7 that applies, by the lengths of the lent memory.
fn tree_verdict(
    w: usize,
    h: usize,
    px: &[u8],
    levels: &[u8],
    work: &[u8],
    words: &[u32],
    places: &[u32],
) -> Result<(), Refusal>
    ensures { verdict_of result ≡ tree_verdict eight (picture w h px.now) levels.now work.now words.now places.now }
{
    list_verdict(w, h, px, levels, work, words)?;
    let half = crossings_of(px, w, h, levels) / 2;
    row_verdict(Reason::TreePlaces, places.len() < half, half)
}

// Lists the lines, takes their leads to the tree places, notes all crossings at their ranks in the word places, writes the entries by the ranks, and lists again, which puts the words back and clears the work bytes.
fn make(
    w: usize,
    h: usize,
    px: &[u8],
    levels: &[u8],
    work: &mut [u8],
    words: &mut [u32],
    places: &mut [u32],
) -> Answer
    requires { ((list_verdict eight (picture w h px.now) levels.now work.old words.old).number ≡ 0) × (half (picture w h px.now) levels.now ≤ length places.old) }
    ensures { TreeMade (picture w h px.now) levels.now work.old words.old places.old result work.new words.new places.new }
{
    let a = lean_lines(w, h, px, levels, work, words);
    let n = a.lines;
    collect(words, a.words, places);
    note_all(px, w, h, levels, places, n, work, words);
    walk(px, w, h, levels, words, places);
    lean_lines(w, h, px, levels, work, words)
}

// Lists every line of every level and gives each its entry in the tree, or refuses and changes nothing.
pub fn tree(
    w: usize,
    h: usize,
    px: &[u8],
    levels: &[u8],
    work: &mut [u8],
    words: &mut [u32],
    places: &mut [u32],
) -> Answer
    ensures { TreeCall eight (picture w h px.now) levels.now work.old words.old places.old result work.new words.new places.new }
{
    match tree_verdict(w, h, px, levels, work, words, places) {
        Err(r) => Answer::refused(r),
        Ok(()) => make(w, h, px, levels, work, words, places),
    }
}
