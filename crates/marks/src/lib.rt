// Marks at places: one bit for each place that a picture can have.
#![tactic(auto)]

ghost use Rattle.std.specs.Prelude.{◌≡◌, false, ◌&&◌, ℕ, ◌+◌, ◌*◌, ◌/◌, ◌≤◌, ◌<◌, eqb, length, get_or};
ghost use Rattle.tally.specs.Tally.{differ};
ghost use Rattle.marks.specs.Marks.{bit_at, Ahead};

// Takes the marks off the first 64·n places.
pub fn clear(m: &mut [u64; 65536], n: usize)
    requires { n ≤ 65536 }
    ensures { (p : ℕ) → p < 64 * n → bit_at m.new p ≡ false }
{
    m[..n].fill(0);
}

// Turns the mark of place p over, if `on`.
pub fn flip(m: &mut [u64; 65536], p: usize, on: bool)
    requires { p < 4194304 }
    ensures { (q : ℕ) → bit_at m.new q ≡ differ (bit_at m.old q) (on && eqb q p) }
{
    let a = p / 64;
    m[a] ^= u64::from(on) << (p % 64);
}

// The marks of the 64 places from 64·a on.
fn number_at(m: &[u64; 65536], a: usize) -> u64
    requires { a < 65536 }
    ensures { result ≡ get_or m.now a 0 }
{
    m[a]
}

// The marks from p on to the end of its number.
pub fn ahead(m: &[u64; 65536], p: usize) -> u64
    requires { p < 4194304 }
    ensures { Ahead m.now p ((p / 64 + 1) * 64) result }
{
    number_at(m, p / 64) >> (p % 64)
}

// The marks from p up to `end`, a place of the same number.
pub fn ahead_to(m: &[u64; 65536], p: usize, end: usize) -> u64
    requires { (p ≤ end) × (end < (p / 64 + 1) * 64) × (end < 4194304) }
    ensures { Ahead m.now p end result }
{
    (number_at(m, p / 64) % (1 << (end % 64))) >> (p % 64)
}
