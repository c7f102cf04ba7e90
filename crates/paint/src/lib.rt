// Line part, membership and painting back.
#![tactic(auto)]

ghost use Rattle.std.specs.Prelude.{◌≡◌, true, not, ◌&&◌, [], ◌∷◌, ◌+◌, ◌*◌, ◌≤◌, ◌<◌, ltb, length, IfOk};
ghost use Rattle.matte.specs.Layout.{eight};
ghost use Rattle.matte.specs.Picture.{levels_fit};
ghost use Rattle.refuse.specs.Refusal.{row, verdict, sides_row, levels_row};
ghost use Rattle.words.specs.Fit.{codes_row, words_fit_row};
ghost use Rattle.refuse.specs.Told.{verdict_of};
ghost use Rattle.paint.specs.Part.{part, words_before, part_start, word_on};
ghost use Rattle.paint.specs.Span.{in_span};
ghost use Rattle.paint.specs.Member.{inside, member_answer};
ghost use Rattle.paint.specs.Paint.{PaintCall};

use edgel::{code_of, flagged};
use layer::add_levels;
use refuse::{Answer, Reason, Refusal, Size, row_verdict, sides_verdict, size_verdict};
use words::{first_bad_code, first_bad_word, run_of};

// The answer of membership.
#[repr(C)]
#[derive(Clone, Copy)]
pub struct Membership {
    pub answer: Answer,
    pub inside: bool,
}

// How many words stand before line n, all of them where there is none.
fn words_before(words: &[u32], n: usize) -> usize
    ensures { (result ≤ length words.now) × (result ≡ words_before eight n words.now) }
{
    let mut left = n;
    for (i, u) in words.iter().enumerate() {
        if flagged(*u) {
            if left == 0 {
                return i;
            }
            left -= 1;
        }
    }
    words.len()
}

// Where line n starts, 0 where there is none.
pub fn start_of(words: &[u32], n: usize) -> usize
    ensures { result ≡ part_start eight n words.now }
{
    let a = words_before(words, n);
    if words.len() <= a {
        return 0;
    }
    a
}

// Line n of a word list, a part of that list itself; empty, at the list's start, where there is none.
pub fn line_part(words: &[u32], n: usize) -> &[u32]
    ensures { (result.now ≡ part eight n words.now) × (result.ref_ptr ≡ word_on words.entry.ref_ptr (part_start eight n words.now)) }
{
    let a = words_before(words, n);
    if a < words.len() {
        let b = a + 1;
        let e = a + 1 + run_of(&words[b..]);
        return &words[a..e];
    }
    &words[0..0]
}

// A horizontal code whose place is among the x places from lo on. It is asked of every word of a line, so there is no branch in it.
fn in_span(lo: usize, x: usize, code: u32) -> bool
    requires { (lo ≤ 4194304) × (x ≤ 2048) }
    ensures { result ≡ in_span lo x code }
{
    let p = (code / 2) as usize;
    (code % 2 == 0) & ((lo <= p) & (p < lo + x))
}

// An odd number of the words is horizontal, on row y, in a column below x.
fn odd_west(size: Size, ws: &[u32], x: usize, y: usize) -> bool
    requires { (x < size.width) × (y < size.height) }
    ensures { result ≡ inside eight size.width ws.now x y }
{
    let lo = y * size.width;
    let mut n = 0;
    for u in ws {
        n += usize::from(in_span(lo, x, code_of(*u)));
    }
    n % 2 == 1
}

// The first refusal of 1 8 11 that applies; `count` is the number of the line's words.
fn member_verdict(
    w: usize,
    h: usize,
    words: &[u32],
    count: usize,
    x: usize,
    y: usize,
) -> Result<Size, Refusal>
    ensures { (verdict_of result ≡ verdict (sides_row w h ∷ codes_row eight w h words.now ∷ row 11 (not (ltb 0 count && (ltb x w && ltb y h))) ∷ [])) × IfOk result (λ s. (s.width ≡ w) × (s.height ≡ h) × (x < w) × (y < h)) }
{
    let size = sides_verdict(w, h)?;
    let i = first_bad_code(size, words);
    row_verdict(Reason::UnfitWord, i < words.len(), i)?;
    row_verdict(Reason::NotThere, !(0 < count && x < w && y < h), 0)?;
    Ok(size)
}

// Whether the sample (x, y) is inside line n.
pub fn member(w: usize, h: usize, words: &[u32], n: usize, x: usize, y: usize) -> Membership
    ensures { result ≡ member_answer eight w h words.now n x y }
{
    let p = line_part(words, n);
    match member_verdict(w, h, words, p.len(), x, y) {
        Err(r) => Membership {
            answer: Answer::refused(r),
            inside: false,
        },
        Ok(size) => Membership {
            answer: Answer::done(0, 0),
            inside: odd_west(size, p, x, y),
        },
    }
}

// The first refusal of 1 3 8 9 that applies.
fn paint_verdict(
    w: usize,
    h: usize,
    levels: &[u8],
    words: &[u32],
    places: usize,
) -> Result<Size, Refusal>
    ensures { (verdict_of result ≡ verdict (sides_row w h ∷ levels_row eight levels.now ∷ words_fit_row eight w h levels.now words.now ∷ row 9 (ltb places (w * h)) ∷ [])) × IfOk result (λ s. (s.width ≡ w) × (s.height ≡ h) × (levels_fit eight levels.now ≡ true) × (w * h ≤ places)) }
{
    let size = size_verdict(w, h, levels)?;
    let i = first_bad_word(size, levels, words);
    row_verdict(Reason::UnfitWord, i < words.len(), i)?;
    row_verdict(Reason::Room, places < size.area(), 0)?;
    Ok(size)
}

// The samples that the words paint, with v on the border, in the first w·h places of `room`.
pub fn paint_words(
    w: usize,
    h: usize,
    v: u8,
    levels: &[u8],
    words: &[u32],
    room: &mut [u8],
) -> Answer
    ensures { PaintCall eight w h v levels.now words.now room.old result room.new }
{
    match paint_verdict(w, h, levels, words, room.len()) {
        Err(r) => Answer::refused(r),
        Ok(size) => {
            add_levels(size, v, levels, words, room);
            Answer::done(0, 0)
        }
    }
}
