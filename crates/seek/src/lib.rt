// The next place whose horizontal edgel is crossed and not visited yet.
#![tactic(auto)]

mod bounds;
mod slot_bounds;
mod within;

ghost use Rattle.std.specs.Prelude.{◌≡◌, not, cond, ◌+◌, ◌-◌, ◌*◌, ◌≤◌, ◌<◌, max, length};
ghost use Rattle.tally.specs.Tally.{every, first_from};
ghost use Rattle.matte.specs.Picture.{most_places};
ghost use Rattle.store.specs.Store.{samples_of};
ghost use Rattle.seek.specs.Search.{reach, Slots, live_at, fresh, Stale, first_or, slot_start, slot_end};

use bounds::reach_of;
pub use bounds::{bound_all, slot_of};
pub use slot_bounds::SlotBounds;
use store::Sample;
use within::{is_fresh, least_in, seen_in};

// The first fresh place of the blocks from b up to e, or `end` with none.
fn in_blocks<T: Sample>(
    px: &[u8],
    work: &[u8],
    b: usize,
    e: usize,
    end: usize,
    k: T,
    m: u8,
) -> usize
    requires { (b ≤ e) × (64 * e < length (samples_of T.wide px.now)) × (64 * e ≤ length work.now) × (length (samples_of T.wide px.now) ≤ most_places) }
    ensures { result ≡ first_or (samples_of T.wide px.now) work.now (T.value k) m (64 * b) (64 * e) end }
{
    for c in b..e {
        let i = seen_in(px, work, 64 * c, k, m);
        if i < 64 {
            return 64 * c + usize::from(i);
        }
    }
    end
}

// The first block of the slot c that is not before block b.
fn slot_start(four: bool, c: usize, b: usize) -> usize
    requires { c ≤ 65536 }
    ensures { result ≡ slot_start four c b }
{
    if four { b.max(4 * c) } else { c }
}

// The block after the slot c.
fn slot_end(four: bool, c: usize) -> usize
    requires { c ≤ 65536 }
    ensures { result ≡ slot_end four c }
{
    if four { 4 * c + 4 } else { c + 1 }
}

// The first fresh place of the slot c, where none before block b is fresh; `end` with none.
fn in_slot<T: Sample>(
    bounds: &SlotBounds<T>,
    work: &[u8],
    c: usize,
    b: usize,
    end: usize,
    k: T,
    m: u8,
) -> usize
    requires { (c < bounds.now.slots) × (reach bounds.now.four (c + 1) ≤ length work.now) × (Stale (samples_of T.wide bounds.now.px.now) work.now (T.value k) m 0 (64 * b)) × (64 * b ≤ reach bounds.now.four (c + 1)) }
    ensures { result ≡ first_or (samples_of T.wide bounds.now.px.now) work.now (T.value k) m (reach bounds.now.four c) (reach bounds.now.four (c + 1)) end }
{
    let first = slot_start(bounds.four, c, b);
    in_blocks(bounds.px, work, first, slot_end(bounds.four, c), end, k, m)
}

// The first fresh place from `from` on and before `end`, or `end`, one by one.
fn tail<T: Sample>(px: &[u8], work: &[u8], k: T, m: u8, from: usize, end: usize) -> usize
    requires { (from ≤ end) × (end < length (samples_of T.wide px.now)) × (end ≤ length work.now) }
    ensures { result ≡ first_from (fresh (samples_of T.wide px.now) work.now (T.value k) m) from (end - from) }
{
    for p in from..end {
        if is_fresh(T::at(px, p), T::at(px, p + 1), work[p], k, m) {
            return p;
        }
    }
    end
}

// The same, where none before `from` is fresh, passing over slots that the level does not enter.
pub fn search<T: Sample>(
    bounds: &SlotBounds<T>,
    work: &[u8],
    k: T,
    m: u8,
    from: usize,
    end: usize,
) -> usize
    requires { (from ≤ end) × (end < length (samples_of T.wide bounds.now.px.now)) × (end ≤ length work.now) × (reach bounds.now.four bounds.now.slots ≤ end) × (Stale (samples_of T.wide bounds.now.px.now) work.now (T.value k) m 0 from) }
    ensures { result ≡ first_from (fresh (samples_of T.wide bounds.now.px.now) work.now (T.value k) m) from (end - from) }
{
    let px = bounds.px;
    let first = from / 64;
    if bounds.slots <= slot_of(bounds.four, first) {
        return tail(px, work, k, m, from, end);
    }
    let i = least_in(px, work, 64 * first, k, m);
    if i < 64 {
        return 64 * first + usize::from(i);
    }
    let b = first + 1;
    // By hand: c jumps to the next live slot, so no range fits.
    let mut c = slot_of(bounds.four, b);
    while c < bounds.slots {
        c = bounds.next_live(c, k);
        if bounds.slots <= c {
            return tail(px, work, k, m, reach_of(bounds.four, bounds.slots), end);
        }
        let p = in_slot(bounds, work, c, b, end, k, m);
        if p < end {
            return p;
        }
        c += 1;
    }
    tail(px, work, k, m, reach_of(bounds.four, bounds.slots), end)
}
