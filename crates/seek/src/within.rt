// The fresh places of one block of 64: loops over many places at a time.
ghost use Rattle.std.specs.Prelude.{◌≡◌, not, ◌&&◌, cond, ◌+◌, ◌≤◌, ◌<◌, eqb, ltb, length};
ghost use Rattle.tally.specs.Tally.{differ, every};
ghost use Rattle.matte.specs.Picture.{most_places};
ghost use Rattle.store.specs.Store.{samples_of};
ghost use Rattle.seek.specs.Search.{fresh, FirstIn};

use store::Sample;

// The horizontal edgel between samples a and b is crossed at k, and its byte n is not the mark m.
pub fn is_fresh<T: Sample>(a: T, b: T, n: u8, k: T, m: u8) -> bool
    ensures { result ≡ (differ (ltb (T.value k) (T.value a)) (ltb (T.value k) (T.value b)) && not (eqb n m)) }
{
    (k.is_below(a) != k.is_below(b)) & (n != m)
}

// The offset where found, else 64: a choice of two numbers, so that many places are looked at at a time.
fn or_top(found: bool, i: u8) -> u8
    ensures { result ≡ cond found i 64 }
{
    if found { i } else { 64 }
}

// One of the 64 places from a on is fresh.
fn any_in<T: Sample>(px: &[u8], work: &[u8], a: usize, k: T, m: u8) -> bool
    requires { (a + 64 < length (samples_of T.wide px.now)) × (a + 64 ≤ length work.now) × (length (samples_of T.wide px.now) ≤ most_places) }
    ensures { result ≡ not (every (λ i. not (fresh (samples_of T.wide px.now) work.now (T.value k) m (a + i))) 64) }
{
    let mut any = false;
    for i in 0..64 {
        let p = T::at(px, a + i);
        let q = T::at(px, a + i + 1);
        any |= is_fresh(p, q, work[a + i], k, m);
    }
    any
}

// The offset of the first fresh place of the 64 from a on; 64 with none.
pub fn least_in<T: Sample>(px: &[u8], work: &[u8], a: usize, k: T, m: u8) -> u8
    requires { (a + 64 < length (samples_of T.wide px.now)) × (a + 64 ≤ length work.now) × (length (samples_of T.wide px.now) ≤ most_places) }
    ensures { FirstIn (samples_of T.wide px.now) work.now (T.value k) m a result }
{
    let mut first = 64;
    for i in 0..64u8 {
        let p = a + usize::from(i);
        let found = is_fresh(T::at(px, p), T::at(px, p + 1), work[p], k, m);
        first = first.min(or_top(found, i));
    }
    first
}

// The same. Most blocks that the level enters have no fresh place left, and asking that first is faster.
pub fn seen_in<T: Sample>(px: &[u8], work: &[u8], a: usize, k: T, m: u8) -> u8
    requires { (a + 64 < length (samples_of T.wide px.now)) × (a + 64 ≤ length work.now) × (length (samples_of T.wide px.now) ≤ most_places) }
    ensures { FirstIn (samples_of T.wide px.now) work.now (T.value k) m a result }
{
    if any_in(px, work, a, k, m) {
        least_in(px, work, a, k, m)
    } else {
        64
    }
}
