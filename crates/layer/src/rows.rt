// Samples held as differences: a sample is the sum of all bytes up to it, modulo 256, so that one byte turns all samples from its place on.
ghost use Rattle.std.specs.Prelude.{◌≡◌, ℕ, ◌+◌, ◌-◌, ◌*◌, ◌%◌, ◌<◌, ◌≤◌, true, not, length, nat_lt};
ghost use Rattle.tally.specs.Tally.{one};
ghost use Rattle.fill.specs.Filled.{Filled};
ghost use Rattle.marks.specs.Marks.{digit, bit_at};
ghost use Rattle.layer.specs.Sums.{up_to, Turned, Ends, Walked, Layered};

use marks::{ahead, ahead_to};
use refuse::Size;

// What is added to turn samples over that are `on`.
fn tick(on: bool) -> u8
    ensures { (result + one on) % 256 ≡ one (not on) }
{
    if on { 255 } else { 1 }
}

// Turns the samples from p on over, which are `on`.
fn turn(room: &mut [u8], p: usize, on: bool)
    requires { p < length room.old }
    ensures { Turned p on (not on) room.old room.new }
{
    room[p] = room[p].wrapping_add(tick(on));
}

// Makes the samples from p on, which are `was`, f.
fn switch(room: &mut [u8], p: usize, was: bool, f: bool)
    requires { p < length room.old }
    ensures { Turned p was f room.old room.new }
{
    if was != f {
        turn(room, p, was);
    }
}

// Turns, for each mark of x, the samples after it; x has the marks from `base` on. Answers what the last samples are.
fn add_bits(x: u64, base: usize, was: bool, room: &mut [u8]) -> bool
    requires { (j : ℕ) → digit x j ≡ true → base + j + 1 < length room.old }
    ensures { (q : ℕ) → Ends x base q → Walked (λ p. digit x (p - base)) was base q was result room.old room.new }
{
    let mut y = x;
    let mut p = base;
    let mut on = was;
    while y != 0 {
        let t = y.trailing_zeros();
        p += t as usize + 1;
        turn(room, p, on);
        on = !on;
        y = (y >> t) >> 1;
    }
    on
}

// Adds a level to the row of the samples from lo up to hi: the first is f, and each mark turns those after it. The samples from lo on were `was` in the level so far.
fn add_row(m: &[u64; 65536], lo: usize, hi: usize, was: bool, f: bool, room: &mut [u8]) -> bool
    requires { (lo < hi) × (hi ≤ 4194304) × (hi ≤ length room.old) }
    ensures { Walked (bit_at m.now) f lo (hi - 1) was result room.old room.new }
{
    switch(room, lo, was, f);
    let end = hi - 1;
    let mut on = f;
    let mut p = lo;
    // By hand: p jumps to the next 64, so no range fits.
    while p / 64 < end / 64 {
        on = add_bits(ahead(m, p), p, on, room);
        p = (p / 64 + 1) * 64;
    }
    add_bits(ahead_to(m, p, end), p, on, room)
}

// Adds level k to all rows.
pub fn add_layer(size: Size, m: &[u64; 65536], v: u8, k: u8, room: &mut [u8])
    requires { size.width * size.height ≤ length room.old }
    ensures { Layered (bit_at m.now) (nat_lt k v) size.width (size.width * size.height) room.old room.new }
{
    let f = k < v;
    let mut on = false;
    for y in 0..size.height {
        let lo = y * size.width;
        on = add_row(m, lo, lo + size.width, on, f, room);
    }
}

// Adds the first n bytes up: each sample is written as it is.
pub fn add_up(room: &mut [u8], n: usize)
    requires { n ≤ length room.old }
    ensures { Filled (up_to room.old) room.old n room.new }
{
    let mut s: u8 = 0;
    for x in room[..n].iter_mut() {
        s = s.wrapping_add(*x);
        *x = s;
    }
}
