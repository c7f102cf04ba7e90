// One line, followed from its lead until it comes back: samples of either width, word places of either kind.
#![tactic(auto)]

ghost use Rattle.std.specs.Prelude.{◌≡◌, Bool, true, false, List, ◌++◌, ℕ, ◌+◌, ◌*◌, ◌≤◌, ◌<◌, eqb, ltb, length, get_or, set, take, drop};
ghost use Rattle.matte.specs.Layout.{layout_of};
ghost use Rattle.matte.specs.Picture.{picture, most_places};
ghost use Rattle.edgel.specs.Word.{word};
ghost use Rattle.edgel.specs.declared.Heading.TheVariants.{East, West};
ghost use Rattle.step.specs.Step.{code_at, state_at, Ready};
ghost use Rattle.outline.specs.Line.{cut_at, line};
ghost use Rattle.outline.specs.List.{encode};
ghost use Rattle.outline.proofs.Bytes.{mark, mark_all};
ghost use Rattle.refuse.specs.Shape.{Ground};
ghost use Rattle.store.specs.Store.{samples_of};
ghost use Rattle.follow.specs.Stride.{Gone, is_east, is_west};
ghost use Rattle.follow.specs.Words.{pasted, Base};

use edgel::Heading;
use step::{State, level, through};
use store::{Place, Sample};

// What a level adds to the codes of its crossings.
pub fn base_of<T: Sample>(k: T) -> u32
    requires { T.value k < (layout_of T.wide).most }
    ensures { (result ≡ T.value k * (layout_of T.wide).codes) × (result + (layout_of T.wide).codes ≤ 2147483648) }
{
    let codes = if T::is_wide() { 2097152 } else { 8388608 };
    u32::from(k.number()) * codes
}

// Stores the word of the horizontal crossing from the place i at n, and marks the place.
// Clauses say what fits: base and m are of the level, n of the word, i of the step, and a type for all would be made anew at each step.
fn put_flat<P: Place>(work: &mut [u8], words: &mut [P], n: usize, i: usize, base: u32, m: u8)
    requires { (n < length (P.words words.old)) × (i < length work.old) × (i < most_places) × (base ≤ 2147483648) }
    ensures { (work.new ≡ set work.old i m) × (P.words words.new ≡ set (P.words words.old) n (2 * i + base)) }
{
    work[i] = m;
    P::put(words, n, 2 * (i as u32) + base);
}

// Stores the word of the vertical crossing from the place i at n.
fn put_tall<P: Place>(words: &mut [P], n: usize, i: usize, base: u32)
    requires { (n < length (P.words words.old)) × (i < most_places) × (base ≤ 2147483648) }
    ensures { P.words words.new ≡ set (P.words words.old) n (2 * i + 1 + base) }
{
    P::put(words, n, 2 * (i as u32) + 1 + base);
}

// Stores a crossing that heads east, and goes through its cell.
fn go_east<T: Sample, P: Place>(
    px: &[u8],
    w: usize,
    k: T,
    base: u32,
    words: &mut [P],
    n: usize,
    s: State,
) -> State
    requires { (Ready (samples_of T.wide px.now) w s) × (s.heading ≡ East) × (n < length (P.words words.old)) × Base T.wide (T.value k) base }
    ensures { Gone (samples_of T.wide px.now) w (T.value k) s result × (P.words words.new ≡ set (P.words words.old) n (word (layout_of T.wide) (code_at s) (T.value k) false)) }
{
    let i = s.place;
    put_tall(words, n, i, base);
    through::<T>(px, w, k.number(), Heading::East, i, i + w, i)
}

// The same of one that heads west. By hand, twice: where the heading is known, the step's table of moves folds away.
fn go_west<T: Sample, P: Place>(
    px: &[u8],
    w: usize,
    k: T,
    base: u32,
    words: &mut [P],
    n: usize,
    s: State,
) -> State
    requires { (Ready (samples_of T.wide px.now) w s) × (s.heading ≡ West) × (n < length (P.words words.old)) × Base T.wide (T.value k) base }
    ensures { Gone (samples_of T.wide px.now) w (T.value k) s result × (P.words words.new ≡ set (P.words words.old) n (word (layout_of T.wide) (code_at s) (T.value k) false)) }
{
    let i = s.place;
    put_tall(words, n, i, base);
    through::<T>(px, w, k.number(), Heading::West, i - 1, i, i + w)
}

// Stores a crossing of any heading, marks it if it is horizontal, and goes through its cell.
fn stride<T: Sample, P: Place>(
    px: &[u8],
    w: usize,
    k: T,
    base: u32,
    m: u8,
    work: &mut [u8],
    words: &mut [P],
    n: usize,
    s: State,
) -> State
    requires { (Ready (samples_of T.wide px.now) w s) × (s.place < length work.old) × (n < length (P.words words.old)) × Base T.wide (T.value k) base }
    ensures { Gone (samples_of T.wide px.now) w (T.value k) s result × (work.new ≡ mark m work.old (code_at s)) × (P.words words.new ≡ set (P.words words.old) n (word (layout_of T.wide) (code_at s) (T.value k) false)) }
{
    let g = s.heading;
    let i = s.place;
    match g {
        Heading::South => {
            put_flat(work, words, n, i, base, m);
            through::<T>(px, w, k.number(), Heading::South, i, i, i + 1)
        }
        Heading::East => go_east(px, w, k, base, words, n, s),
        Heading::North => {
            put_flat(work, words, n, i, base, m);
            through::<T>(px, w, k.number(), Heading::North, i - w, i + 1, i)
        }
        Heading::West => go_west(px, w, k, base, words, n, s),
    }
}

// The crossing heads east.
fn heads_east(s: State) -> bool
    ensures { result ≡ is_east s.heading }
{
    matches!(s.heading, Heading::East)
}

// The crossing heads west.
fn heads_west(s: State) -> bool
    ensures { result ≡ is_west s.heading }
{
    matches!(s.heading, Heading::West)
}

// The crossing is the horizontal one from the place e.
pub fn at_lead(s: State, e: usize) -> bool
    ensures { result ≡ eqb (code_at s) (2 * e) }
{
    level(s.heading) && s.place == e
}

// The crossing of the horizontal edgel from the place e, by whether that place is high: it heads S, the start of the order, or N.
// A bool, as in the definition of the state at a lead: a place is high or not.
pub fn lead_state(e: usize, high: bool) -> State
    ensures { (H : ℕ → Bool) → H e ≡ high → result ≡ state_at H (2 * e) }
{
    let heading = if high {
        Heading::North
    } else {
        Heading::start()
    };
    State { place: e, heading }
}

// Follows the line of the lead at the place e: its words go to the places from `from` on, none flagged yet. Returns where they end. Runs to the east and the west have loops of their own, for speed. No crossing starts on the last row, so that row needs no work bytes.
fn follow<T: Sample, P: Place>(
    px: &[u8],
    w: usize,
    h: usize,
    k: T,
    m: u8,
    work: &mut [u8],
    words: &mut [P],
    from: usize,
    e: usize,
) -> usize
    requires { (Ground (picture w h (samples_of T.wide px.now))) × (T.value k < (layout_of T.wide).most) × (length (samples_of T.wide px.now) ≤ length work.old + w) × (cut_at (picture w h (samples_of T.wide px.now)) (T.value k) (2 * e) ≡ true) × (from + length (line (picture w h (samples_of T.wide px.now)) (T.value k) (2 * e)) ≤ length (P.words words.old)) }
    ensures { (result ≡ from + length (line (picture w h (samples_of T.wide px.now)) (T.value k) (2 * e))) × (work.new ≡ mark_all m work.old (line (picture w h (samples_of T.wide px.now)) (T.value k) (2 * e))) × (P.words words.new ≡ pasted (P.words words.old) from (encode (layout_of T.wide) (T.value k) false (line (picture w h (samples_of T.wide px.now)) (T.value k) (2 * e)))) }
{
    let base = base_of(k);
    let limit = P::count(words);
    let mut s = lead_state(e, k.is_below(T::at(px, e)));
    let mut n = from;
    // By hand: the runs inside move n on as well, so no range counts the turns.
    while n < limit {
        s = stride(px, w, k, base, m, work, words, n, s);
        n += 1;
        while heads_east(s) {
            if limit <= n {
                return n;
            }
            s = go_east(px, w, k, base, words, n, s);
            n += 1;
        }
        while heads_west(s) {
            if limit <= n {
                return n;
            }
            s = go_west(px, w, k, base, words, n, s);
            n += 1;
        }
        if at_lead(s, e) {
            return n;
        }
    }
    n
}

// The same with the first word flagged.
pub fn trace_line<T: Sample, P: Place>(
    px: &[u8],
    w: usize,
    h: usize,
    k: T,
    m: u8,
    work: &mut [u8],
    words: &mut [P],
    from: usize,
    e: usize,
) -> usize
    requires { (Ground (picture w h (samples_of T.wide px.now))) × (T.value k < (layout_of T.wide).most) × (length (samples_of T.wide px.now) ≤ length work.old + w) × (cut_at (picture w h (samples_of T.wide px.now)) (T.value k) (2 * e) ≡ true) × (from + length (line (picture w h (samples_of T.wide px.now)) (T.value k) (2 * e)) ≤ length (P.words words.old)) × (2 * length (samples_of T.wide px.now) ≤ (layout_of T.wide).codes) }
    ensures { (result ≡ from + length (line (picture w h (samples_of T.wide px.now)) (T.value k) (2 * e))) × (work.new ≡ mark_all m work.old (line (picture w h (samples_of T.wide px.now)) (T.value k) (2 * e))) × (P.words words.new ≡ pasted (P.words words.old) from (encode (layout_of T.wide) (T.value k) true (line (picture w h (samples_of T.wide px.now)) (T.value k) (2 * e)))) }
{
    let n = follow(px, w, h, k, m, work, words, from, e);
    let base = base_of(k);
    P::put(words, from, 2 * (e as u32) + base + 2147483648);
    n
}
