// The piece call: what the level line is inside one cell.
#![tactic(auto)]

ghost use Rattle.std.specs.Prelude.{◌≡◌, Bool, true, false, ◌&&◌, ℕ, ◌+◌, ◌*◌, ◌<◌, ◌≤◌, ltb, length, pos, ◌-ℤ◌, IfOk};
ghost use Rattle.matte.specs.Layout.{eight};
ghost use Rattle.matte.specs.Picture.{picture};
ghost use Rattle.refuse.specs.Told.{verdict_of};
ghost use Rattle.piece.specs.Piece.{up_to, case_of, piece_of, told, piece_verdict, piece_answer};
ghost use Rattle.piece.specs.Curve.{over, curved_of, term, mixed, corners_at};

use refuse::{Answer, Reason, Refusal, Size, level_verdict, row_verdict};

// The centre of the hyperbolas of a cell, relative to its top left sample.
#[derive(Clone, Copy)]
pub struct Centre {
    pub xs: f64,
    pub ys: f64,
}

// The piece of a level line in one cell. Refused is a case of its own, and no Err: the definition `case_of` and the theorem `refused_only` speak of the four cases by number.
#[derive(Clone, Copy)]
pub enum Piece {
    Refused,
    Straight,
    Corner(Centre),
    Branch(Centre, f64),
}

#[derive(Clone, Copy)]
pub struct Found {
    pub answer: Answer,
    pub piece: Piece,
}

// The samples at the corners of a cell, by place: top left, bottom left, bottom right, top right.
#[derive(Clone, Copy)]
struct Corners {
    p0: u8,
    p1: u8,
    p2: u8,
    p3: u8,
}

fn product(a: u32, b: u32) -> u32
    requires { (a ≤ 511) × (b ≤ 510) }
    ensures { (result ≡ a * b) × (result ≤ 260610) }
{
    a * b
}

// One side of the saddle's test.
fn term_of(k: u8, a: u8, b: u8, c: u8, d: u8) -> u32
    ensures { result ≡ term k a b c d }
{
    product(2 * (k as u32) + 1, (a as u32) + (b as u32)) + 2 * product(c as u32, d as u32)
}

// The quotient (a − b)/m: the sign is set only where a − b is below 0, so that zero is +0.
fn quotient(a: u32, b: u32, m: u32) -> f64
    ensures { result ≡ over (pos a -ℤ pos b) m }
{
    if a < b {
        return -((b - a) as f64) / (m as f64);
    }
    ((a - b) as f64) / (m as f64)
}

// The quotient (x − u)/m lies from 0 to 1.
fn part_within(x: u32, u: u32, m: u32) -> bool
    ensures { result ≡ up_to (pos x -ℤ pos u) m }
{
    u <= x && x - u <= m
}

// The piece of a cell whose d has the size m, with the centre (x − u)/m and (y − v)/m and the excess l − r.
fn curved(x: u8, u: u8, y: u8, v: u8, l: u32, r: u32, m: u32) -> Piece
    requires { m ≤ 510 }
    ensures { case_of result ≡ curved_of (pos x -ℤ pos u) (pos y -ℤ pos v) (pos l -ℤ pos r) m }
{
    let c = Centre {
        xs: quotient(x as u32, u as u32, m),
        ys: quotient(y as u32, v as u32, m),
    };
    if l != r {
        return Piece::Branch(c, quotient(l, r, 2 * product(m, m)));
    }
    if part_within(x as u32, u as u32, m) && part_within(y as u32, v as u32, m) {
        return Piece::Corner(c);
    }
    Piece::Straight
}

// The piece of level k in the cell with these corners.
fn piece_of(k: u8, q: Corners) -> Piece
    ensures { case_of result ≡ piece_of q.p0 q.p1 q.p2 q.p3 k }
{
    let Corners { p0, p1, p2, p3 } = q;
    let plus = (p0 as u32) + (p2 as u32);
    let minus = (p1 as u32) + (p3 as u32);
    if plus == minus {
        return Piece::Straight;
    }
    let l = term_of(k, p0, p2, p1, p3);
    let r = term_of(k, p1, p3, p0, p2);
    if plus < minus {
        return curved(p1, p0, p3, p0, l, r, minus - plus);
    }
    curved(p0, p1, p0, p3, l, r, plus - minus)
}

// Some of the corners are high and some low.
fn is_mixed(k: u8, q: Corners) -> bool
    ensures { result ≡ mixed (ltb k q.p0) (ltb k q.p1) (ltb k q.p2) (ltb k q.p3) }
{
    let high = q.p0 > k;
    (q.p1 > k) != high || (q.p2 > k) != high || (q.p3 > k) != high
}

// (x, y) is the top left sample of a cell.
fn is_cell(size: Size, x: usize, y: usize) -> bool
    ensures { result ≡ (ltb (x + 1) size.width && ltb (y + 1) size.height) }
{
    x < size.width - 1 && y < size.height - 1
}

// The corners of the cell whose top left sample is (x, y).
fn corners_at(size: Size, px: &[u8], x: usize, y: usize) -> Corners
    requires { (length px.now ≡ size.width * size.height) × (x + 1 < size.width) × (y + 1 < size.height) }
    ensures { result ≡ corners_at size.width px.now (y * size.width + x) }
{
    let t = y * size.width + x;
    Corners {
        p0: px[t],
        p1: px[t + size.width],
        p2: px[t + size.width + 1],
        p3: px[t + 1],
    }
}

// The refusals 1 2 3 11 10; the cell's corners where none is given.
fn piece_verdict(
    w: usize,
    h: usize,
    px: &[u8],
    k: u8,
    x: usize,
    y: usize,
) -> Result<Corners, Refusal>
    ensures { (verdict_of result ≡ piece_verdict eight (picture w h px.now) k x y) × IfOk result (λ q. q ≡ corners_at w px.now (y * w + x)) }
{
    let size = level_verdict(w, h, px, &[k])?;
    row_verdict(Reason::NotThere, !is_cell(size, x, y), 0)?;
    let q = corners_at(size, px, x, y);
    row_verdict(Reason::NotCrossed, !is_mixed(k, q), 0)?;
    Ok(q)
}

// The piece of level k in the cell whose top left sample is (x, y).
pub fn piece_at(w: usize, h: usize, px: &[u8], k: u8, x: usize, y: usize) -> Found
    ensures { told result ≡ piece_answer eight (picture w h px.now) k x y }
{
    match piece_verdict(w, h, px, k, x, y) {
        Ok(q) => Found {
            answer: Answer::done(0, 0),
            piece: piece_of(k, q),
        },
        Err(r) => Found {
            answer: Answer::refused(r),
            piece: Piece::Refused,
        },
    }
}
