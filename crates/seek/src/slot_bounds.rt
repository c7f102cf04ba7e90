// The slots of a picture with both bounds of their samples, and the next one that a level enters.
ghost use Rattle.std.specs.Prelude.{◌≡◌, not, ◌+◌, ◌-◌, ◌≤◌, ◌<◌};
ghost use Rattle.tally.specs.Tally.{every, first_from};
ghost use Rattle.store.specs.Store.{samples_of};
ghost use Rattle.seek.specs.Search.{Slots, live_at};

use std::marker::PhantomData;
use store::Sample;

// The samples of a picture, and the least and the greatest of each slot.
#[derive(Drop)]
pub struct SlotBounds<'a, T: Sample> {
    pub px: &'a [u8],
    pub lo: &'a [u8],
    pub hi: &'a [u8],
    pub four: bool,
    pub slots: usize,
    pub of: PhantomData<T>,
    pub ghost held: { Slots (samples_of T.wide px.now) (samples_of T.wide lo.now) (samples_of T.wide hi.now) four slots },
}

impl<'a, T: Sample> SlotBounds<'a, T> {
    // The level lies between the bounds at the slot c.
    fn live(&self, c: usize, k: T) -> bool
        requires { c < self.now.slots }
        ensures { result ≡ live_at (samples_of T.wide self.now.lo.now) (samples_of T.wide self.now.hi.now) (T.value k) c }
    {
        !k.is_below(T::at(self.lo, c)) & k.is_below(T::at(self.hi, c))
    }

    // One of the 16 slots from c on is live.
    fn alive_in(&self, c: usize, k: T) -> bool
        requires { c + 16 ≤ self.now.slots }
        ensures { result ≡ not (every (λ i. not (live_at (samples_of T.wide self.now.lo.now) (samples_of T.wide self.now.hi.now) (T.value k) (c + i))) 16) }
    {
        let mut any = false;
        for i in 0..16 {
            any |= self.live(c + i, k);
        }
        any
    }

    // The first live slot from `from` on, or `slots`, one by one.
    fn scan_live(&self, from: usize, k: T) -> usize
        requires { from ≤ self.now.slots }
        ensures { result ≡ first_from (live_at (samples_of T.wide self.now.lo.now) (samples_of T.wide self.now.hi.now) (T.value k)) from (self.now.slots - from) }
    {
        for c in from..self.slots {
            if self.live(c, k) {
                return c;
            }
        }
        self.slots
    }

    // The same, 16 slots at a time.
    pub fn next_live(&self, from: usize, k: T) -> usize
        requires { from ≤ self.now.slots }
        ensures { result ≡ first_from (live_at (samples_of T.wide self.now.lo.now) (samples_of T.wide self.now.hi.now) (T.value k)) from (self.now.slots - from) }
    {
        // By hand: c jumps by 16, and the slots after the last whole 16 are scanned from where it stops.
        let mut c = from;
        while c + 16 <= self.slots {
            if self.alive_in(c, k) {
                return self.scan_live(c, k);
            }
            c += 16;
        }
        self.scan_live(c, k)
    }
}
