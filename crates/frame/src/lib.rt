// Framing: the picture with its border set to the lower median of the border samples.
#![tactic(auto)]

ghost use Rattle.std.specs.Prelude.{◌≡◌, true, List, [], ◌∷◌, ℕ, ◌+◌, ◌*◌, ◌≤◌, ◌<◌, eqb, ltb, length, get_or, IfOk};
ghost use Rattle.tally.specs.Tally.{one, every, sum};
ghost use Rattle.fill.specs.Filled.{Filled};
ghost use Rattle.matte.specs.Layout.{eight};
ghost use Rattle.matte.specs.Picture.{picture};
ghost use Rattle.refuse.specs.Refusal.{row, verdict, sides_row, samples_row};
ghost use Rattle.refuse.specs.Told.{verdict_of};
ghost use Rattle.frame.specs.Frame.{border_samples, median, FrameCall};
ghost use Rattle.frame.specs.Counts.{head_of, counts, Added, Roomy, under, halfway, half_from};
ghost use Rattle.frame.specs.Framing.{framing};

use refuse::{Answer, Reason, Refusal, Size, row_verdict, shape_verdict};

// What a search for the half found: the value, and how many samples are below it.
#[derive(Clone, Copy)]
struct Found {
    value: u8,
    below: u32,
}

// What is counted: of samples, or of their upper halves, the 16 values from 16·top on.
#[derive(Clone, Copy)]
struct Heads {
    whole: bool,
    top: u8,
    ghost top_fits: { top ≤ 15 },
}

// The sample, or its upper half.
// A bool, as in the definition head_of.
fn head_of(s: u8, whole: bool) -> u8
    ensures { result ≡ head_of whole s }
{
    if whole { s } else { s / 16 }
}

// Counts in a run, sample by sample.
fn count_run(run: &[u8], heads: Heads, t: &mut [u32; 16])
    requires { Roomy (length run.now) t.old }
    ensures { Added heads.whole heads.top run.now t.old t.new }
{
    for s in run {
        let q = head_of(*s, heads.whole);
        t[usize::from(q % 16)] += u32::from(q / 16 == heads.top);
    }
}

// Whether all samples of a run have the head q.
fn all_same(run: &[u8], whole: bool, q: u8) -> bool
    ensures { result ≡ every (λ j. eqb (head_of whole (get_or run.now j 0)) q) (length run.now) }
{
    let mut same = true;
    for s in run {
        same &= head_of(*s, whole) == q;
    }
    same
}

// Counts in a run of 64: at once, if all have one head.
fn count_block(block: &[u8], heads: Heads, t: &mut [u32; 16])
    requires { (length block.now ≡ 64) × Roomy 64 t.old }
    ensures { Added heads.whole heads.top block.now t.old t.new }
{
    let q = head_of(block[0], heads.whole);
    if all_same(block, heads.whole, q) {
        t[usize::from(q % 16)] += 64 * u32::from(q / 16 == heads.top);
    } else {
        count_run(block, heads, t);
    }
}

// Counts in a long run, 64 samples at a time: a counter that is raised again at once waits for itself, so 64 samples of one head are better counted together.
fn count_row(run: &[u8], heads: Heads, t: &mut [u32; 16])
    requires { Roomy (length run.now) t.old }
    ensures { Added heads.whole heads.top run.now t.old t.new }
{
    let blocks = run.len() / 64;
    for k in 0..blocks {
        count_block(&run[64 * k..64 * k + 64], heads, t);
    }
    count_run(&run[64 * blocks..], heads, t);
}

// How often each of 16 values is a head on the border: the first row and what follows, two ends of rows at a time, the rest of the last row.
// A clause says that there are as many samples as the size says: they are the caller's buffer.
fn border_counts(size: Size, px: &[u8], heads: Heads) -> [u32; 16]
    requires { length px.now ≡ size.width * size.height }
    ensures { result ≡ counts heads.whole heads.top (border_samples (picture size.width size.height px.now)) }
{
    let w = size.width;
    let n = size.area();
    let mut t = [0u32; 16];
    count_row(&px[..w + 1], heads, &mut t);
    for y in 1..size.height - 1 {
        let last = y * w + w - 1;
        count_run(&px[last..last + 2], heads, &mut t);
    }
    count_row(&px[n - w + 1..], heads, &mut t);
    t
}

// The first of 16 entries up to which at least half of n are, `below` of them before the first.
fn middle(t: &[u32; 16], below: u32, n: u32) -> Found
    requires { below + sum (λ i. get_or t.now i 0) 16 ≤ 4194304 }
    ensures { (result.value ≡ halfway t.now below n) × (result.below ≡ below + sum (λ i. get_or t.now i 0) result.value) }
{
    let mut upto = below;
    for d in 0..15 {
        let next = upto + t[usize::from(d)];
        if n <= 2 * next {
            return Found {
                value: d,
                below: upto,
            };
        }
        upto = next;
    }
    Found {
        value: 15,
        below: upto,
    }
}

// The first of the 16 values from 16·top on that at least half of the heads on the border do not exceed, `below` of them below 16·top.
fn half_from(size: Size, px: &[u8], heads: Heads, below: u32) -> Found
    requires { (length px.now ≡ size.width * size.height) × (below ≡ under heads.whole (border_samples (picture size.width size.height px.now)) (16 * heads.top)) }
    ensures { (result.value ≡ half_from heads.whole heads.top (border_samples (picture size.width size.height px.now))) × (result.below ≡ under heads.whole (border_samples (picture size.width size.height px.now)) result.value) }
{
    let t = border_counts(size, px, heads);
    let f = middle(&t, below, (2 * (size.width + size.height) - 4) as u32);
    Found {
        value: 16 * heads.top + f.value,
        below: f.below,
    }
}

// The lower median of the border samples.
fn border_median(size: Size, px: &[u8]) -> u8
    requires { length px.now ≡ size.width * size.height }
    ensures { result ≡ median eight (border_samples (picture size.width size.height px.now)) }
{
    let upper = Heads {
        whole: false,
        top: 0,
    };
    let u = half_from(size, px, upper, 0);
    let all = Heads {
        whole: true,
        top: u.value,
    };
    let v = half_from(size, px, all, u.below);
    v.value
}

// Copies all of `from` over `to`. A function of its own with a loop: here it is known that the two do not overlap, which copy_from_slice does not tell. Out of line, small pictures take up to a third longer.
fn copy(to: &mut [u8], from: &[u8])
    requires { length to.old ≡ length from.now }
    ensures len { length to.new ≡ length to.old }
    ensures after { to.new ≡ from.now }
{
    for i in 0..to.len() {
        to[i] = from[i];
    }
}

// Writes the picture with v on its border. Rows are copied whole, so that they begin where rows begin, and their ends are written over.
fn frame_rows(size: Size, px: &[u8], v: u8, room: &mut [u8])
    requires { (length px.now ≡ size.width * size.height) × (size.width * size.height ≤ length room.old) }
    ensures { Filled (framing size.width size.height v px.now) room.old (size.width * size.height) room.new }
{
    let w = size.width;
    let n = size.area();
    room[..w].fill(v);
    for y in 1..size.height - 1 {
        let from = y * w;
        let to = from + w;
        copy(&mut room[from..to], &px[from..to]);
        room[from] = v;
        room[to - 1] = v;
    }
    room[n - w..n].fill(v);
}

// The first refusal of 1 2 9 that applies.
fn frame_verdict(w: usize, h: usize, px: &[u8], places: usize) -> Result<Size, Refusal>
    ensures { (verdict_of result ≡ verdict (sides_row w h ∷ samples_row (picture w h px.now) ∷ row 9 (ltb places (w * h)) ∷ [])) × IfOk result (λ s. (s.width ≡ w) × (s.height ≡ h) × (length px.now ≡ w * h) × (w * h ≤ places)) }
{
    let size = shape_verdict(w, h, px)?;
    row_verdict(Reason::Room, places < size.area(), 0)?;
    Ok(size)
}

// The picture with all border samples set to their lower median, in the first w·h places of `room`.
pub fn frame_picture(w: usize, h: usize, px: &[u8], room: &mut [u8]) -> Answer
    ensures { FrameCall eight (picture w h px.now) room.old result room.new }
{
    match frame_verdict(w, h, px, room.len()) {
        Err(r) => Answer::refused(r),
        Ok(size) => {
            let m = border_median(size, px);
            frame_rows(size, px, m, room);
            Answer::done(0, 0)
        }
    }
}
