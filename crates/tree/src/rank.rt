// Ranks of horizontal crossings, row by row in exact order, by running sums of the steps.
ghost use Rattle.std.specs.Prelude.{◌≡◌, true, ◌+◌, ◌*◌, ◌-◌, ◌/◌, ◌≤◌, ◌<◌, length, get_or, drop};
ghost use Rattle.tally.specs.Tally.{total};
ghost use Rattle.matte.specs.Layout.{eight};
ghost use Rattle.matte.specs.Picture.{picture, levels_fit};
ghost use Rattle.refuse.specs.Shape.{Ground};
ghost use Rattle.enclosure.specs.Call.{heads};
ghost use Rattle.tree.specs.Note.{Rising, gap_at, gaps, Starts, rank_at};

use block::{num4_at, put4};
use count::{gap, step_table};

fn step_at(st: &[u8; 256], p: u8) -> u8
    ensures { result ≡ get_or st.now p 0 }
{
    st[usize::from(p)]
}

// The crossings between the place i and the next.
fn gap_at(px: &[u8], st: &[u8; 256], i: usize) -> u8
    requires { (i + 1 < length px.now) × (length px.now ≤ 4194304) }
    ensures { (result ≡ gap_at st.now px.now i) × (result ≤ 255) }
{
    gap(step_at(st, px[i]), step_at(st, px[i + 1]))
}

// The crossings before the place e, n of them before the place a.
pub fn sum_to(px: &[u8], st: &[u8; 256], a: usize, e: usize, n: u32) -> u32
    requires { (a ≤ e) × (e < length px.now) × (length px.now ≤ 4194304) × (n ≡ gaps st.now px.now a) × (n ≤ 255 * a) }
    ensures { (result ≡ gaps st.now px.now e) × (result ≤ 255 * e) }
{
    let mut m = n;
    for i in a..e {
        m += u32::from(gap_at(px, st, i));
    }
    m
}

// The running sums at every 8th place, each as four of the work bytes.
pub fn run_starts(px: &[u8], st: &[u8; 256], work: &mut [u8])
    requires { (4 ≤ length px.now) × (length px.now ≤ 4194304) × (length px.now ≤ length work.old) }
    ensures { Starts st.now px.now work.new × (drop (length px.now) work.new ≡ drop (length px.now) work.old) }
{
    let last = (px.len() - 1) / 8;
    let mut n = 0;
    for b in 0..last {
        put4(work, 4 * b, n);
        n = sum_to(px, st, 8 * b, 8 * b + 8, n);
    }
    put4(work, 4 * last, n);
}

// The rank of the crossing of level k at the place i.
pub fn rank_of(px: &[u8], st: &[u8; 256], starts: &[u8], k: u8, i: usize) -> usize
    requires { (i < length px.now) × (length px.now ≤ 4194304) × (k < 255) × (Rising st.now) × (Starts st.now px.now starts.now) }
    ensures { result ≡ rank_at st.now px.now k i }
{
    let b = i / 8;
    let n = sum_to(px, st, 8 * b, i, num4_at(starts, 4 * b));
    let p = px[i];
    let s = u32::from(step_at(st, p));
    let rank = if k < p {
        n + s - u32::from(step_at(st, k + 1))
    } else {
        n + u32::from(step_at(st, k)) - s
    };
    rank as usize
}

// The horizontal crossings of all levels.
// Clauses say what a tested picture and tested levels are, apart as in the public calls and in their definitions.
pub fn crossings_of(px: &[u8], w: usize, h: usize, ks: &[u8]) -> usize
    requires { (Ground (picture w h px.now)) × (levels_fit eight ks.now ≡ true) }
    ensures { (result ≡ total (heads (picture w h px.now)) ks.now) × (result ≤ 1069547520) }
{
    let st = step_table(ks);
    sum_to(px, &st, 0, px.len() - 1, 0) as usize
}
