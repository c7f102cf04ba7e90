// Bounds of the samples of each block of 64 and of the one after it; four blocks may share theirs.
ghost use Rattle.std.specs.Prelude.{◌≡◌, true, false, ◌+◌, ◌≤◌, ◌<◌, min, max, length, drop};
ghost use Rattle.matte.specs.Picture.{most_places};
ghost use Rattle.store.specs.Store.{samples_of};
ghost use Rattle.seek.specs.Search.{slot, reach, span, further, bound_of, Bounds};

use store::Sample;

// Where the bounds of block b stand. A bool, and no enum: the definitions `slot`, `reach`, `span`, `slot_start` and `slot_end` take `four` as a Bool.
// A bool says how many blocks a slot has, as in the definitions slot, reach and span, which an enum would be told back to.
pub fn slot_of(four: bool, b: usize) -> usize
    ensures { result ≡ slot four b }
{
    if four { b / 4 } else { b }
}

// How many places lie in the first n slots.
pub fn reach_of(four: bool, n: usize) -> usize
    requires { n ≤ 65536 }
    ensures { result ≡ reach four n }
{
    if four { 256 * n } else { 64 * n }
}

// The greater of two samples, or the lesser. A bool, and no closure: the definitions `further` and `bound_of` take `top` as a Bool.
// A bool picks the greater, as in the definition further: with a rule as a parameter each bound would be told back to it.
fn either<T: Sample>(top: bool, a: T, b: T) -> T
    ensures { T.value result ≡ further top (T.value a) (T.value b) }
{
    if top { a.greater(b) } else { a.lesser(b) }
}

// The greatest, or the least, of the sample a and the n after it.
fn bound_in<T: Sample>(px: &[u8], top: bool, a: usize, n: usize) -> T
    requires { (a + n < length (samples_of T.wide px.now)) × (length (samples_of T.wide px.now) ≤ most_places) }
    ensures { T.value result ≡ bound_of (samples_of T.wide px.now) top a n }
{
    let mut m = T::at(px, a);
    for i in 0..n {
        m = either(top, m, T::at(px, a + i + 1));
    }
    m
}

// The bound of the slot c.
fn bound_of<T: Sample>(px: &[u8], top: bool, four: bool, c: usize) -> T
    requires { (reach four (c + 1) < length (samples_of T.wide px.now)) × (length (samples_of T.wide px.now) ≤ most_places) }
    ensures { T.value result ≡ bound_of (samples_of T.wide px.now) top (reach four c) (span four) }
{
    if four {
        bound_in(px, top, 256 * c, 256)
    } else {
        bound_in(px, top, 64 * c, 64)
    }
}

// The bound of each slot from a up to e, those before having theirs.
fn bound_each<T: Sample>(px: &[u8], top: bool, out: &mut [u8], four: bool, a: usize, e: usize)
    requires { (a ≤ e) × (reach four e < length (samples_of T.wide px.now)) × (length (samples_of T.wide px.now) ≤ most_places) × (e ≤ length (samples_of T.wide out.old)) × Bounds (samples_of T.wide px.now) (samples_of T.wide out.old) top four a }
    ensures { Bounds (samples_of T.wide px.now) (samples_of T.wide out.new) top four e × (drop e (samples_of T.wide out.new) ≡ drop e (samples_of T.wide out.old)) }
{
    for c in a..e {
        T::put(out, c, bound_of(px, top, four, c));
    }
}

// Both bounds for each slot, piece by piece, so that a piece is still near at hand for the second.
pub fn bound_all<T: Sample>(px: &[u8], lo: &mut [u8], hi: &mut [u8], four: bool, slots: usize)
    requires { (reach four slots < length (samples_of T.wide px.now)) × (length (samples_of T.wide px.now) ≤ most_places) × (slots ≤ length (samples_of T.wide lo.old)) × (slots ≤ length (samples_of T.wide hi.old)) }
    ensures { Bounds (samples_of T.wide px.now) (samples_of T.wide lo.new) false four slots × Bounds (samples_of T.wide px.now) (samples_of T.wide hi.new) true four slots × (drop slots (samples_of T.wide lo.new) ≡ drop slots (samples_of T.wide lo.old)) × (drop slots (samples_of T.wide hi.new) ≡ drop slots (samples_of T.wide hi.old)) }
{
    for piece in 0..slots.div_ceil(256) {
        let a = 256 * piece;
        let e = (a + 256).min(slots);
        bound_each::<T>(px, false, lo, four, a, e);
        bound_each::<T>(px, true, hi, four, a, e);
    }
}
