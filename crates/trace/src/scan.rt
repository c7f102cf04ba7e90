// The lines of one level in the order of their leads, and of all levels.
ghost use Rattle.std.specs.Prelude.{◌≢◌, ℕ, ◌+◌, ◌-◌, ◌%◌, ◌≤◌, ◌<◌, length, get_or};
ghost use Rattle.matte.specs.Layout.{layout_of};
ghost use Rattle.matte.specs.Picture.{picture};
ghost use Rattle.outline.specs.Line.{lines};
ghost use Rattle.store.specs.Store.{samples_of};
ghost use Rattle.seek.specs.Search.{reach};
ghost use Rattle.trace.specs.Level.{LevelReady, LevelDone, Marked, AllReady, AllDone};

use crate::clear;
use follow::trace_line;
use seek::{SlotBounds, search};
use store::{Place, Sample};

// The words and lines written so far.
#[derive(Clone, Copy)]
pub struct Written {
    pub words: usize,
    pub lines: usize,
}

// All lines of level k, their words behind those that stand there already. No lead is on the last row, which is border.
fn level_lines<T: Sample, P: Place>(
    bounds: &SlotBounds<T>,
    w: usize,
    h: usize,
    k: T,
    m: u8,
    work: &mut [u8],
    words: &mut [P],
    st: Written,
) -> Written
    requires { (LevelReady (layout_of T.wide) (picture w h (samples_of T.wide bounds.now.px.now)) (T.value k) m work.old (P.words words.old) st) × (reach bounds.now.four bounds.now.slots ≤ length (samples_of T.wide bounds.now.px.now) - w) }
    ensures { LevelDone (layout_of T.wide) (picture w h (samples_of T.wide bounds.now.px.now)) (T.value k) m work.old (P.words words.old) st result work.new (P.words words.new) }
{
    let end = T::count(bounds.px) - w;
    let mut s = st;
    let mut p = search(bounds, work, k, m, 0, end);
    // By hand: p jumps to the next lead that is found, so no range fits.
    while p < end {
        let from = s.words;
        let l = s.lines;
        let n = trace_line(bounds.px, w, h, k, m, work, words, from, p);
        s = Written {
            words: n,
            lines: l + 1,
        };
        p = search(bounds, work, k, m, p + 1, end);
    }
    s
}

// The mark of level number j; where marks begin again, the first n work bytes are cleared.
fn mark_for(work: &mut [u8], n: usize, j: usize) -> u8
    requires { (n ≤ length work.old) × (j % 255 ≢ 0 → (i : ℕ) → i < n → get_or work.old i 0 ≤ j % 255) }
    ensures { Marked n j work.old result work.new }
{
    let m = j % 255;
    if m == 0 {
        clear(work, n);
        return 1;
    }
    m as u8 + 1
}

// All lines of all levels, from the first place on.
pub fn all_levels<T: Sample, P: Place>(
    bounds: &SlotBounds<T>,
    w: usize,
    h: usize,
    ks: &[u8],
    work: &mut [u8],
    words: &mut [P],
) -> Written
    requires { (AllReady (layout_of T.wide) (picture w h (samples_of T.wide bounds.now.px.now)) (samples_of T.wide ks.now) work.old (P.words words.old)) × (reach bounds.now.four bounds.now.slots ≤ length (samples_of T.wide bounds.now.px.now) - w) }
    ensures { AllDone (layout_of T.wide) (picture w h (samples_of T.wide bounds.now.px.now)) (samples_of T.wide ks.now) work.old (P.words words.old) result work.new (P.words words.new) }
{
    let end = T::count(bounds.px) - w;
    let levels = T::count(ks);
    let mut s = Written { words: 0, lines: 0 };
    for j in 0..levels {
        let m = mark_for(work, end, j);
        let k = T::at(ks, j);
        s = level_lines(bounds, w, h, k, m, work, words, s);
    }
    s
}
