// The crossing call: where exactly a level crosses an edgel.
#![tactic(auto)]

ghost use Rattle.std.specs.Prelude.{◌≡◌, Bool, true, false, cond, ℕ, ◌+◌, ◌*◌, ◌%◌, ◌≤◌, ltb, get_or, IfOk};
ghost use Rattle.tally.specs.Tally.{apart, differ};
ghost use Rattle.matte.specs.Layout.{eight};
ghost use Rattle.matte.specs.Picture.{picture};
ghost use Rattle.edgel.specs.Heading.{number};
ghost use Rattle.edgel.specs.Edgel.{heading_of, second};
ghost use Rattle.refuse.specs.Told.{verdict_of};
ghost use Rattle.crossing.specs.Crossing.{passage, whole, along, crossing_verdict, crossing_answer};

use edgel::Heading;
use ratio::{distance, lowest};
use refuse::{Answer, Reason, Refusal, Size, level_verdict, row_verdict};
use words::edgel_fits;

// How a level crosses an edgel: the heading, and the fraction num/den of the way in lowest terms.
#[derive(Clone, Copy)]
pub struct Passage {
    pub heading: Heading,
    pub num: u32,
    pub den: u32,
}

// The answer, which C reads as it stands: the heading by its number, the fraction num/den of the way in lowest terms, and the point as floats.
#[repr(C)]
#[derive(Clone, Copy)]
pub struct Crossing {
    pub answer: Answer,
    pub heading: u32,
    pub num: u32,
    pub den: u32,
    pub x: f64,
    pub y: f64,
}

// One of the two samples is above the level and the other is not.
fn splits(k: u8, a: u8, b: u8) -> bool
    ensures { result ≡ differ (ltb k a) (ltb k b) }
{
    (k < a) != (k < b)
}

// The place of an edgel's right or bottom end.
fn other_end(w: usize, code: u32) -> usize
    requires { w ≤ 2048 }
    ensures { result ≡ second w code }
{
    let i = (code / 2) as usize;
    if code % 2 == 0 {
        return i + 1;
    }
    i + w
}

// The sample at a place, 0 past the last. form::byte_at is its twin for bytes that are read, and no crate with code stands under both.
fn sample_at(px: &[u8], i: usize) -> u8
    ensures { result ≡ get_or px.now i 0 }
{
    px.get(i).copied().unwrap_or(0)
}

// How far the level is from an edgel's left or top sample, doubled: an odd number.
fn gap_of(k: u8, a: u8) -> u32
    ensures { (result ≡ apart (2 * k + 1) (2 * a)) × (result % 2 ≡ 1) }
{
    distance(2 * (k as u32) + 1, 2 * (a as u32))
}

// How far an edgel's samples are apart, doubled.
fn span_of(a: u8, b: u8) -> u32
    ensures { result ≡ 2 * apart a b }
{
    2 * distance(a as u32, b as u32)
}

// The heading of a crossing, by its edgel's direction and whether the left or top end is high.
// Two bools, as in the definition heading_of.
fn heading_of(flat: bool, high: bool) -> Heading
    ensures { result ≡ heading_of flat high }
{
    match (flat, high) {
        (true, true) => Heading::North,
        (true, false) => Heading::South,
        (false, true) => Heading::East,
        (false, false) => Heading::West,
    }
}

// How level k crosses the edgel of a code. Every call that needs a crossing's ends, heading or fraction asks here.
pub fn passage_at(w: usize, h: usize, px: &[u8], k: u8, code: u32) -> Passage
    requires { w ≤ 2048 }
    ensures { result ≡ passage (picture w h px.now) k code }
{
    let i = (code / 2) as usize;
    let a = sample_at(px, i);
    let b = sample_at(px, other_end(w, code));
    let f = lowest(gap_of(k, a), span_of(a, b));
    Passage {
        heading: heading_of(code % 2 == 0, k < a),
        num: f.num,
        den: f.den,
    }
}

// A heading's number in their order.
fn heading_number(g: Heading) -> u32
    ensures { result ≡ number g }
{
    g.number() as u32
}

// A whole number as a float.
fn float_of(n: u32) -> f64
    ensures { result ≡ whole n }
{
    n as f64
}

// A coordinate, moved by the fraction a/b where the edgel runs along it: one division and one addition.
fn coordinate(moves: bool, n: u32, a: u32, b: u32) -> f64
    ensures { result ≡ cond moves (along n a b) (whole n) }
{
    if moves {
        return n as f64 + (a as f64) / (b as f64);
    }
    n as f64
}

// The refusals 1 2 3 8 10; the picture's size where none is given.
fn crossing_verdict(w: usize, h: usize, px: &[u8], k: u8, code: u32) -> Result<Size, Refusal>
    ensures { (verdict_of result ≡ crossing_verdict eight (picture w h px.now) k code) × IfOk result (λ s. (s.width ≡ w) × (s.height ≡ h)) }
{
    let size = level_verdict(w, h, px, &[k])?;
    row_verdict(Reason::UnfitWord, !edgel_fits(size, code), 0)?;
    let i = (code / 2) as usize;
    let j = other_end(size.width, code);
    row_verdict(Reason::NotCrossed, !splits(k, px[i], px[j]), 0)?;
    Ok(size)
}

// Where level k crosses the edgel of a code.
pub fn crossing_at(w: usize, h: usize, px: &[u8], k: u8, code: u32) -> Crossing
    ensures { result ≡ crossing_answer eight (picture w h px.now) k code }
{
    let size = match crossing_verdict(w, h, px, k, code) {
        Ok(size) => size,
        Err(r) => {
            return Crossing {
                answer: Answer::refused(r),
                heading: 0,
                num: 0,
                den: 0,
                x: float_of(0),
                y: float_of(0),
            };
        }
    };
    let t = passage_at(w, h, px, k, code);
    let flat = code % 2 == 0;
    let p = code / 2;
    let c = size.width as u32;
    Crossing {
        answer: Answer::done(0, 0),
        heading: heading_number(t.heading),
        num: t.num,
        den: t.den,
        x: coordinate(flat, p % c, t.num, t.den),
        y: coordinate(!flat, p / c, t.num, t.den),
    }
}
