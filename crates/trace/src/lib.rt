// Listing: all lines of all levels, in order, as words.
#![tactic(auto)]

mod scan;

ghost use Rattle.std.specs.Prelude.{◌≡◌, ◌++◌, ◌≤◌, ◌<◌, length, drop, replicate, IfOk};
ghost use Rattle.matte.specs.Layout.{eight, layout_of};
ghost use Rattle.matte.specs.Picture.{picture};
ghost use Rattle.refuse.specs.Told.{verdict_of};
ghost use Rattle.store.specs.Store.{samples_of};
ghost use Rattle.outline.specs.List.{listed, list_verdict, ListCall};
ghost use Rattle.seek.specs.Search.{reach};

use count::count_words;
use refuse::{Answer, Reason, Refusal, ground_verdict, row_verdict};
use scan::all_levels;
use seek::{SlotBounds, bound_all, slot_of};
use std::marker::PhantomData;
use store::{Place, Sample};

// Sets the first n bytes to 0.
pub fn clear(work: &mut [u8], n: usize)
    requires { n ≤ length work.old }
    ensures { work.new ≡ replicate n 0 ++ drop n work.old }
{
    work[..n].fill(0);
}

// How many words there are, or the first of the refusals 1 to 6 that applies, by the lengths of the lent memory.
fn list_check(
    w: usize,
    h: usize,
    px: &[u8],
    levels: &[u8],
    work: &[u8],
    words: &[u32],
) -> Result<usize, Refusal>
    ensures { (verdict_of result ≡ list_verdict eight (picture w h px.now) levels.now work.now words.now) × IfOk result (λ n. n ≡ length (listed eight (picture w h px.now) levels.now)) }
{
    ground_verdict(w, h, px, levels)?;
    row_verdict(Reason::WorkBytes, work.len() < px.len(), 0)?;
    let needed = count_words(px, w, h, levels);
    row_verdict(Reason::WordPlaces, words.len() < needed, needed)?;
    Ok(needed)
}

// The first of the refusals alone.
pub fn list_verdict(
    w: usize,
    h: usize,
    px: &[u8],
    levels: &[u8],
    work: &[u8],
    words: &[u32],
) -> Result<(), Refusal>
    ensures { verdict_of result ≡ list_verdict eight (picture w h px.now) levels.now work.now words.now }
{
    list_check(w, h, px, levels, work, words)?;
    Ok(())
}

// Lists a call that is not refused, with room for the bounds of any picture. Marks begin half a row into the work bytes, for speed.
fn list_lines<T: Sample, P: Place>(
    w: usize,
    h: usize,
    px: &[u8],
    levels: &[u8],
    work: &mut [u8],
    words: &mut [P],
    lo: &mut [u8],
    hi: &mut [u8],
    four: bool,
) -> Answer
    requires { ((list_verdict (layout_of T.wide) (picture w h (samples_of T.wide px.now)) (samples_of T.wide levels.now) work.old (P.words words.old)).number ≡ 0) × (length (samples_of T.wide px.now) ≤ (layout_of T.wide).samples) × ((layout_of T.wide).samples ≤ reach four (length (samples_of T.wide lo.old))) × ((layout_of T.wide).samples ≤ reach four (length (samples_of T.wide hi.old))) }
    ensures { ListCall (layout_of T.wide) (picture w h (samples_of T.wide px.now)) (samples_of T.wide levels.now) work.old (P.words words.old) result work.new (P.words words.new) }
{
    let n = T::count(px);
    let slots = slot_of(four, (n - w) / 64);
    bound_all::<T>(px, lo, hi, four, slots);
    let bounds = SlotBounds::<T> {
        px,
        lo,
        hi,
        four,
        slots,
        of: PhantomData,
    };
    let s = all_levels(&bounds, w, h, levels, &mut work[w / 2..], words);
    clear(work, n);
    Answer::done(s.words, s.lines)
}

// The same on a quarter of the stack, and slower: bounds are on the stack, for 256 samples each.
pub fn lean_lines(
    w: usize,
    h: usize,
    px: &[u8],
    levels: &[u8],
    work: &mut [u8],
    words: &mut [u32],
) -> Answer
    requires { (list_verdict eight (picture w h px.now) levels.now work.old words.old).number ≡ 0 }
    ensures { ListCall eight (picture w h px.now) levels.now work.old words.old result work.new words.new }
{
    let mut lo = [0u8; 16384];
    let mut hi = [0u8; 16384];
    list_lines::<u8, u32>(w, h, px, levels, work, words, &mut lo, &mut hi, true)
}

// Lists every line of every level into the lent word places, or refuses and changes nothing. Where nothing is crossed, there is nothing to look for. Bounds are on the stack, for 64 samples each.
pub fn list(
    w: usize,
    h: usize,
    px: &[u8],
    levels: &[u8],
    work: &mut [u8],
    words: &mut [u32],
) -> Answer
    ensures { ListCall eight (picture w h px.now) levels.now work.old words.old result work.new words.new }
{
    match list_check(w, h, px, levels, work, words) {
        Err(r) => Answer::refused(r),
        Ok(0) => {
            clear(work, px.len());
            Answer::done(0, 0)
        }
        Ok(_) => {
            let mut lo = [0u8; 65536];
            let mut hi = [0u8; 65536];
            list_lines::<u8, u32>(w, h, px, levels, work, words, &mut lo, &mut hi, false)
        }
    }
}
