// Notes at the ranks of all horizontal crossings: each tells its line.
ghost use Rattle.std.specs.Prelude.{◌≡◌, true, ◌+◌, ◌*◌, ◌/◌, ◌%◌, ◌≤◌, ◌<◌, length, drop};
ghost use Rattle.tally.specs.Tally.{one, total};
ghost use Rattle.matte.specs.Layout.{eight};
ghost use Rattle.matte.specs.Picture.{picture};
ghost use Rattle.step.specs.Step.{code_at};
ghost use Rattle.edgel.specs.Edgel.{horizontal};
ghost use Rattle.outline.specs.Line.{line};
ghost use Rattle.enclosure.specs.Tree.{line_count};
ghost use Rattle.enclosure.proofs.Notes.{Noted};
ghost use Rattle.enclosure.specs.Call.{heads};
ghost use Rattle.tree.specs.Note.{Rising, Starts, rank_at, note_of, note_at, noted, noted_all, note_for, LineReady, NotesReady};

use crate::rank::{rank_of, run_starts};
use count::step_table;
use follow::{at_lead, lead_state};
use step::{State, advance, level};

// The bit of a note whose crossing has its lead's heading.
pub const STRAIGHT: u32 = 1 << 29;

// The bit of a note that is its line's lead.
pub const LEAD: u32 = 1 << 30;

// The bit of a note or an entry of a lower line.
pub const LOWER: u32 = 1 << 31;

// A note as one word.
// Clauses say what fits a note: the numbers are of the line, the places of the picture.
fn note_word(n: u32, straight: bool, lead: bool, lower: bool) -> u32
    requires { n < 536870912 }
    ensures { result ≡ note_of n straight lead lower }
{
    n + u32::from(straight) * STRAIGHT + u32::from(lead) * LEAD + u32::from(lower) * LOWER
}

// The note of line n, whose lead is at e, for its crossing at i.
fn note_of(px: &[u8], k: u8, n: u32, e: usize, i: usize) -> u32
    requires { (n < 536870912) × (e < length px.now) × (i < length px.now) }
    ensures { result ≡ note_at px.now k n e i }
{
    let a = k < px[i];
    let b = k < px[e];
    note_word(n, a == b, i == e, b)
}

// Notes a horizontal crossing at its rank.
fn put_note(
    px: &[u8],
    st: &[u8; 256],
    starts: &[u8],
    k: u8,
    n: u32,
    e: usize,
    s: State,
    words: &mut [u32],
)
    requires { (length px.now ≤ 4194304) × (k < 255) × (Rising st.now) × (Starts st.now px.now starts.now) × (n < 536870912) × (e < length px.now) × (s.place < length px.now) × (horizontal (code_at s) ≡ true → rank_at st.now px.now k s.place < length words.old) }
    ensures { words.new ≡ noted st.now px.now k n e words.old (code_at s) }
{
    if level(s.heading) {
        let r = rank_of(px, st, starts, k, s.place);
        words[r] = note_of(px, k, n, e, s.place);
    }
}

// Notes the crossings of line n, of level k, whose lead is at e.
fn note_line(
    px: &[u8],
    w: usize,
    h: usize,
    st: &[u8; 256],
    starts: &[u8],
    k: u8,
    n: u32,
    e: usize,
    words: &mut [u32],
)
    requires { LineReady (picture w h px.now) st.now starts.now k n e words.old }
    ensures { words.new ≡ noted_all st.now px.now k n e words.old (line (picture w h px.now) k (2 * e)) }
{
    let mut s = lead_state(e, k < px[e]);
    for _ in 0..2 * px.len() {
        put_note(px, st, starts, k, n, e, s, words);
        s = advance::<u8>(px, w, u16::from(k), s);
        if at_lead(s, e) {
            return;
        }
    }
}

// Notes the crossings of all n lines, whose leads stand in the tree places. Running sums are kept in the work bytes, within as many as there are samples; the rest is left.
pub fn note_all(
    px: &[u8],
    w: usize,
    h: usize,
    ks: &[u8],
    places: &[u32],
    n: usize,
    work: &mut [u8],
    words: &mut [u32],
)
    requires { (NotesReady (picture w h px.now) ks.now places.now n words.old) × (length px.now ≤ length work.old) }
    ensures { (Noted eight (picture w h px.now) ks.now (note_for (picture w h px.now) ks.now) (line_count eight (picture w h px.now) ks.now) 0 words.new) × (drop (total (heads (picture w h px.now)) ks.now) words.new ≡ drop (total (heads (picture w h px.now)) ks.now) words.old) × (drop (length px.now) work.new ≡ drop (length px.now) work.old) }
{
    let st = step_table(ks);
    run_starts(px, &st, work);
    for (m, x) in places[..n].iter().enumerate() {
        note_line(
            px,
            w,
            h,
            &st,
            work,
            (x / 8388608) as u8,
            m as u32,
            (x % 8388608 / 2) as usize,
            words,
        );
    }
}
