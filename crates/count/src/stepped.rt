// Counting by steps: a sample's step is the number of listed levels that it is high at, and an edgel is crossed as often as the steps of its ends are apart.
ghost use Rattle.std.specs.Prelude.{◌≡◌, true, ℕ, ◌+◌, ◌*◌, ◌-◌, ◌≤◌, ◌<◌, ltb, length, get_or};
ghost use Rattle.tally.specs.Tally.{one, sum, apart};
ghost use Rattle.matte.specs.Layout.{eight};
ghost use Rattle.matte.specs.Picture.{picture, levels_fit};
ghost use Rattle.outline.specs.List.{listed};
ghost use Rattle.refuse.specs.Shape.{Ground};
ghost use Rattle.count.specs.Steps.{steps, level_or, step_table, Room, Row, Distances, gaps};

// How far two steps are apart. ratio::distance is its twin: abs_diff is in no trait of std, and a trait of our own would be longer than both.
pub fn gap(a: u8, b: u8) -> u8
    ensures { (result ≡ apart a b) × (result ≤ 255) }
{
    a.abs_diff(b)
}

// The step of v + 1, j being that of v.
fn passed(ks: &[u8], j: usize, v: usize) -> usize
    requires { (levels_fit eight ks.now ≡ true) × (j ≡ steps ks.now v) }
    ensures { result ≡ steps ks.now (v + 1) }
{
    if j < ks.len() && usize::from(ks[j]) <= v {
        j + 1
    } else {
        j
    }
}

// The steps of all bytes.
pub fn step_table(ks: &[u8]) -> [u8; 256]
    requires { levels_fit eight ks.now ≡ true }
    ensures { result ≡ step_table ks.now }
{
    let mut t = [0u8; 256];
    let mut j = 0;
    for v in 0..256 {
        t[v] = j as u8;
        j = passed(ks, j, v);
    }
    t
}

// The steps of the w samples from `from` on, by the table.
fn row_steps(t: &[u8; 256], px: &[u8], from: usize, w: usize, q: &mut [u8; 2048])
    requires { Room px.now from w q.old }
    ensures { Row t.now px.now from w q.new }
{
    for x in 0..w {
        q[x] = t[usize::from(px[from + x])];
    }
}

// The levels, at most eight, with 255, which no sample is above, for each that is missing.
fn eight_levels(ks: &[u8]) -> [u8; 8]
    requires { length ks.now ≤ 8 }
    ensures { (j : ℕ) → j < 8 → get_or result j 0 ≡ level_or ks.now j }
{
    let mut levels = [255; 8];
    levels[..ks.len()].copy_from_slice(ks);
    levels
}

// How many of the levels v is high at.
fn step8(levels: &[u8; 8], v: u8) -> u8
    ensures { result ≡ sum (λ j. one (ltb (get_or levels.now j 0) v)) 8 }
{
    let mut n = 0;
    for level in levels {
        n += u8::from(*level < v);
    }
    n
}

// The steps of a row, by comparing with at most eight levels.
fn row_few(ks: &[u8], px: &[u8], from: usize, w: usize, q: &mut [u8; 2048])
    requires { (length ks.now ≤ 8) × Room px.now from w q.old }
    ensures { Row (step_table ks.now) px.now from w q.new }
{
    let levels = eight_levels(ks);
    for x in 0..w {
        q[x] = step8(&levels, px[from + x]);
    }
}

// The steps of a row: by comparing where there are at most eight levels, else by the table.
fn row_of(ks: &[u8], t: &[u8; 256], px: &[u8], from: usize, w: usize, q: &mut [u8; 2048])
    requires { (t.now ≡ step_table ks.now) × Room px.now from w q.old }
    ensures { Row t.now px.now from w q.new }
{
    if ks.len() <= 8 {
        row_few(ks, px, from, w, q);
    } else {
        row_steps(t, px, from, w, q);
    }
}

// Stores in d how far the first `end` elements of p are from those of q, taken s places on.
fn gap_row(p: &[u8; 2048], q: &[u8; 2048], s: usize, end: usize, d: &mut [u8; 2048])
    requires { (s ≤ 1) × (end + s ≤ 2048) × (length d.old ≡ 2048) }
    ensures { Distances p.now q.now s end d.new }
{
    for x in 0..end {
        d[x] = gap(p[x], q[x + s]);
    }
}

// The sum of the elements a to e - 1, at most 256 of them.
fn short_sum(d: &[u8; 2048], a: usize, e: usize) -> u16
    requires { (a ≤ e) × (e ≤ a + 256) × (e ≤ 2048) }
    ensures { (result ≡ sum (λ i. get_or d.now (a + i) 0) (e - a)) × (result ≤ 255 * (e - a)) }
{
    let mut n = 0;
    for x in a..e {
        n += u16::from(d[x]);
    }
    n
}

// The sum of the first `end` elements.
fn long_sum(d: &[u8; 2048], end: usize) -> usize
    requires { end ≤ 2048 }
    ensures { (result ≡ sum (λ i. get_or d.now i 0) end) × (result ≤ 255 * end) }
{
    let pieces = end / 256;
    let mut n = 0;
    for piece in 0..pieces {
        n += usize::from(short_sum(d, 256 * piece, 256 * piece + 256));
    }
    n + usize::from(short_sum(d, 256 * pieces, end))
}

// The sum of the distances at a row's places but its last: first those along the row, then those to the row below.
fn row_sum(p: &[u8; 2048], q: &[u8; 2048], w: usize) -> usize
    requires { (1 ≤ w) × (w ≤ 2048) }
    ensures { (result ≡ sum (gaps p.now q.now) (w - 1)) × (result ≤ 510 * w) }
{
    let end = w - 1;
    let mut d = [0u8; 2048];
    gap_row(p, p, 1, end, &mut d);
    let n = long_sum(&d, end);
    gap_row(p, q, 0, end, &mut d);
    n + long_sum(&d, end)
}

// The words of the list, row by row: each row of steps is made once and compared with the one above it.
pub fn by_steps(px: &[u8], w: usize, h: usize, ks: &[u8]) -> usize
    requires { (Ground (picture w h px.now)) × (levels_fit eight ks.now ≡ true) }
    ensures { result ≡ length (listed eight (picture w h px.now) ks.now) }
{
    let t = step_table(ks);
    let mut p = [0u8; 2048];
    let mut q = [0u8; 2048];
    row_of(ks, &t, px, 0, w, &mut p);
    // By hand: two rows at a step, so that each buffer is the upper one in turn and none is copied.
    let mut n = 0;
    let mut y = 0;
    let mut from = 0;
    while y + 2 < h {
        row_of(ks, &t, px, from + w, w, &mut q);
        n += row_sum(&p, &q, w);
        from += w + w;
        row_of(ks, &t, px, from, w, &mut p);
        n += row_sum(&q, &p, w);
        y += 2;
    }
    if y + 1 < h {
        row_of(ks, &t, px, from + w, w, &mut q);
        return n + row_sum(&p, &q, w);
    }
    n
}
