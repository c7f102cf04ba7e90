// The step of a line through one cell, and the code of a crossing.
#![tactic(auto)]

ghost use Rattle.std.specs.Prelude.{◌≡◌, Bool, true, false, ℕ, ◌+◌, ◌*◌, ◌≤◌, ◌<◌, length, get_or};
ghost use Rattle.matte.specs.Picture.{picture, most_places};
ghost use Rattle.edgel.specs.Heading.{left, dx, dy, ahead};
ghost use Rattle.edgel.specs.Edgel.{horizontal};
ghost use Rattle.store.specs.Store.{samples_of};
ghost use Rattle.cell.specs.Turn.{saddle, leave, turn as turnBy};
ghost use Rattle.step.specs.Step.{four, turned, right_end, left_end, code_on, code_at, leaving, after, Ready};

use edgel::Heading;
use store::Sample;

// A move by one place: east and south are positive.
#[derive(Clone, Copy)]
pub struct Move {
    pub dx: i64,
    pub dy: i64,
}

// The moves of the headings, in their order: a table of signed numbers, since the law `moves` is about its entries.
const MOVES: [Move; 4] = [
    Move { dx: 0, dy: 1 },
    Move { dx: 1, dy: 0 },
    Move { dx: 0, dy: -1 },
    Move { dx: -1, dy: 0 },
];

// A crossing on its way: the left or top end of its edgel, and its heading.
#[derive(Clone, Copy)]
pub struct State {
    pub place: usize,
    pub heading: Heading,
}

// The move of a heading.
fn move_of(g: Heading) -> Move
    ensures { (result.dx ≡ dx g) × (result.dy ≡ dy g) }
{
    MOVES[g.number()]
}

// The place one move on from the place i; the move must not leave the picture at its top or its first place.
fn place_ahead(w: usize, g: Heading, i: usize) -> usize
    requires { (w ≤ 2048) × (i < most_places) × (ahead w (left (left g)) (ahead w g i) ≡ i) }
    ensures { result ≡ ahead w g i }
{
    let m = move_of(g);
    (i as i64 + m.dx + m.dy * (w as i64)) as usize
}

// The level is below the saddle of a cell with these corners, named from the entry; no sum or product comes near 2^64.
pub fn below_saddle<T: Sample>(k: T, p0: T, p1: T, p2: T, p3: T) -> bool
    ensures { result ≡ saddle (T.value k) (four (T.value p0) (T.value p1) (T.value p2) (T.value p3)) }
{
    let m = 2 * u64::from(k.number()) + 1;
    let a = u64::from(p0.number());
    let b = u64::from(p1.number());
    let c = u64::from(p2.number());
    let d = u64::from(p3.number());
    2 * (a * c) + m * (b + d) < 2 * (b * d) + m * (a + c)
}

// The heading out of a cell whose far corners are high at the right hand and low at the left. Only here the ends of the entry are read: most cells do not come here.
fn by_saddle<T: Sample>(px: &[u8], k: u16, g: Heading, p1: T, p2: T, r: usize, l: usize) -> Heading
    requires { (r < length (samples_of T.wide px.now)) × (l < length (samples_of T.wide px.now)) }
    ensures { result ≡ turnBy true false (saddle k (four (get_or (samples_of T.wide px.now) r 0) (T.value p1) (T.value p2) (get_or (samples_of T.wide px.now) l 0))) g }
{
    let p0 = T::at(px, r).number();
    let p3 = T::at(px, l).number();
    if below_saddle(k, p0, p1.number(), p2.number(), p3) {
        return g.right();
    }
    g.left()
}

// The heading out of a cell that is entered with the heading g between the places r and l; a and b are the places ahead of them.
fn turn<T: Sample>(px: &[u8], k: u16, g: Heading, r: usize, a: usize, b: usize, l: usize) -> Heading
    requires { (r < length (samples_of T.wide px.now)) × (a < length (samples_of T.wide px.now)) × (b < length (samples_of T.wide px.now)) × (l < length (samples_of T.wide px.now)) }
    ensures { result ≡ turned k g (four (get_or (samples_of T.wide px.now) r 0) (get_or (samples_of T.wide px.now) a 0) (get_or (samples_of T.wide px.now) b 0) (get_or (samples_of T.wide px.now) l 0)) }
{
    let p1 = T::at(px, a);
    let p2 = T::at(px, b);
    if k < p1.number() {
        if k < p2.number() {
            return g.right();
        }
        return by_saddle(px, k, g, p1, p2, r, l);
    }
    if k < p2.number() {
        return g;
    }
    g.left()
}

// The state that leaves the cell t with the heading g.
fn leave_by(w: usize, g: Heading, t: usize) -> State
    requires { (w ≤ 2048) × (t < most_places) }
    ensures { result ≡ leaving w g t }
{
    match g {
        Heading::South => State {
            place: t + w,
            heading: Heading::South,
        },
        Heading::East => State {
            place: t + 1,
            heading: Heading::East,
        },
        Heading::North => State {
            place: t,
            heading: Heading::North,
        },
        Heading::West => State {
            place: t,
            heading: Heading::West,
        },
    }
}

// Through the cell t, entered with the heading g between the place r at the right hand and the place l at the left.
// Clauses say what fits: the picture is the caller's buffer, and each step has its own place.
pub fn through<T: Sample>(
    px: &[u8],
    w: usize,
    k: u16,
    g: Heading,
    t: usize,
    r: usize,
    l: usize,
) -> State
    requires { (w ≤ 2048) × (length (samples_of T.wide px.now) ≤ most_places) × (t + w + 1 < length (samples_of T.wide px.now)) × (r ≡ right_end w g t) × (l ≡ left_end w g t) }
    ensures { (h : ℕ) → result ≡ leaving w (leave (picture w h (samples_of T.wide px.now)) k g t) t }
{
    let a = place_ahead(w, g, r);
    let b = place_ahead(w, g, l);
    leave_by(w, turn::<T>(px, k, g, r, a, b, l), t)
}

// The crossing after a crossing.
pub fn advance<T: Sample>(px: &[u8], w: usize, k: u16, s: State) -> State
    requires { Ready (samples_of T.wide px.now) w s }
    ensures { (h : ℕ) → result ≡ after (picture w h (samples_of T.wide px.now)) k s }
{
    let g = s.heading;
    let i = s.place;
    match g {
        Heading::South => through::<T>(px, w, k, Heading::South, i, i, i + 1),
        Heading::East => through::<T>(px, w, k, Heading::East, i, i + w, i),
        Heading::North => through::<T>(px, w, k, Heading::North, i - w, i + 1, i),
        Heading::West => through::<T>(px, w, k, Heading::West, i - 1, i, i + w),
    }
}

// The code of a crossing.
pub fn code_at(s: State) -> u32
    requires { s.place < most_places }
    ensures { (result ≡ code_at s) × (result < 2 * most_places) }
{
    match s.heading {
        Heading::South | Heading::North => 2 * (s.place as u32),
        Heading::East | Heading::West => 2 * (s.place as u32) + 1,
    }
}

// The heading crosses horizontal edgels.
pub fn level(g: Heading) -> bool
    ensures { (i : ℕ) → result ≡ horizontal (code_on g i) }
{
    matches!(g, Heading::South | Heading::North)
}
