// The first border sample that differs from sample 0, and the edge that it is on.
ghost use Rattle.std.specs.Prelude.{◌≡◌, ◌+◌, ◌-◌, ◌*◌, ◌≤◌, ◌<◌, eqb, length, get_or};
ghost use Rattle.tally.specs.Tally.{one, every, first_from};
ghost use Rattle.matte.specs.Picture.{picture};
ghost use Rattle.refuse.specs.Hot.{edge, hot};
ghost use Rattle.refuse.specs.Told.{number_of};
ghost use Rattle.refuse.specs.Ends.{other_at, end_other};

use crate::reason::Reason;
use crate::size::Size;

// The 64 samples from `from` on are all v.
fn all_like(px: &[u8], from: usize, v: u8) -> bool
    requires { from + 64 ≤ length px.now }
    ensures { result ≡ every (λ j. eqb (get_or px.now (from + j) 0) v) 64 }
{
    let mut others: u8 = 0;
    for j in 0..64 {
        others += u8::from(px[from + j] != v);
    }
    others == 0
}

// The first sample from `from` on and before `to` that is not v, or `to`, one by one.
fn scan_other(px: &[u8], from: usize, to: usize, v: u8) -> usize
    requires { (from ≤ to) × (to ≤ length px.now) }
    ensures { result ≡ first_from (other_at px.now v) from (to - from) }
{
    for i in from..to {
        if px[i] != v {
            return i;
        }
    }
    to
}

// The same, 64 samples at a time: one is looked for only where there is one.
fn next_other(px: &[u8], from: usize, to: usize, v: u8) -> usize
    requires { (from ≤ to) × (to ≤ length px.now) × (to ≤ 4194304) }
    ensures { result ≡ first_from (other_at px.now v) from (to - from) }
{
    let mut i = from;
    // A range would need its end worked out, and the rest again: i goes on by 64 as long as 64 are left.
    while i + 64 <= to {
        if !all_like(px, i, v) {
            return scan_other(px, i, to, v);
        }
        i += 64;
    }
    scan_other(px, i, to, v)
}

// The first end of a row that is not v, left or right, between the first and the last row; the start of the last row with none.
fn end_other(size: Size, px: &[u8], v: u8) -> usize
    requires { length px.now ≡ size.width * size.height }
    ensures { result ≡ first_from (end_other size.width px.now v) size.width (size.width * size.height - size.width - size.width) }
{
    let w = size.width;
    let mut left = w;
    for y in 1..size.height - 1 {
        let right = left + w - 1;
        if px[left] != v {
            return left;
        }
        if px[right] != v {
            return right;
        }
        left += w;
    }
    left
}

// The place of the first border sample that differs from sample 0, or w·h: one look at the border, in its order.
pub fn hot_at(size: Size, px: &[u8]) -> usize
    requires { length px.now ≡ size.width * size.height }
    ensures { result ≡ hot (picture size.width size.height px.now) }
{
    let w = size.width;
    let n = size.area();
    let v = px[0];
    let i = next_other(px, 0, w, v);
    if i < w {
        return i;
    }
    let j = end_other(size, px, v);
    if j < n - w {
        return j;
    }
    next_other(px, n - w, n, v)
}

// The edge that the border place i is on, as a reason.
pub fn edge_of(size: Size, i: usize) -> Reason
    requires { i < size.width * size.height }
    ensures { number_of result ≡ edge size.width size.height i }
{
    let y = i / size.width;
    if y == 0 {
        return Reason::TopBorder;
    }
    if y + 1 == size.height {
        return Reason::BottomBorder;
    }
    if i % size.width == 0 {
        return Reason::LeftBorder;
    }
    Reason::RightBorder
}
