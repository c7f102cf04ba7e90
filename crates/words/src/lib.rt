// The test of a word list: codes that name edgels, levels that are listed.
#![tactic(auto)]

ghost use Rattle.std.specs.Prelude.{◌≡◌, ◌+◌, ◌*◌, ◌/◌, ◌≤◌, length};
ghost use Rattle.tally.specs.Tally.{first_at};
ghost use Rattle.matte.specs.Layout.{eight};
ghost use Rattle.edgel.specs.Edgel.{edgel};
ghost use Rattle.edgel.specs.Word.{flagged};
ghost use Rattle.words.specs.Fit.{bad_code, bad_word};
ghost use Rattle.words.specs.Listed.{level_table, word_fits};

use edgel::{code_of, flagged, level_of};
use refuse::Size;

// A size as the test of a code wants it: beside the sides, how many samples it has, and the factor that finds the last column without a division.
#[derive(Clone, Copy)]
pub struct Grid {
    pub size: Size,
    pub samples: u32,
    pub factor: u64,
    pub ghost samples_are: { samples ≡ size.width * size.height },
    pub ghost factor_is: { factor ≡ 8589934592 / size.width + 1 },
}

// The grid of a size.
pub fn grid_of(size: Size) -> Grid
    ensures { result.size ≡ size }
{
    Grid {
        size,
        samples: size.area() as u32,
        factor: 8589934592 / size.width as u64 + 1,
    }
}

// The code names an edgel of the grid. It is asked of every word of a list, so there is no division in it and no branch.
pub fn on_grid(g: Grid, code: u32) -> bool
    ensures { result ≡ edgel g.size.width g.size.height code }
{
    let p = code / 2;
    let down = code % 2;
    let r = (p as u64 + 1) * g.factor % 8589934592;
    (p + down * (g.size.width as u32) < g.samples) & ((down != 0) | (g.factor <= r))
}

// The code names an edgel of the size.
pub fn edgel_fits(size: Size, code: u32) -> bool
    ensures { result ≡ edgel size.width size.height code }
{
    on_grid(grid_of(size), code)
}

// The first word whose code names no edgel, or the length.
pub fn first_bad_code(size: Size, ws: &[u32]) -> usize
    ensures { result ≡ first_at (bad_code eight size.width size.height) ws.now }
{
    let g = grid_of(size);
    ws.iter()
        .position(|u| !on_grid(g, code_of(*u)))
        .unwrap_or(ws.len())
}

// How many words stand before the next flagged one.
pub fn run_of(ws: &[u32]) -> usize
    ensures { (result ≡ first_at (flagged eight) ws.now) × (result ≤ length ws.now) }
{
    ws.iter().position(|u| flagged(*u)).unwrap_or(ws.len())
}

// The table of the listed levels.
pub fn level_table(ks: &[u8]) -> [u8; 256]
    ensures { result ≡ level_table eight ks.now }
{
    let mut t = [0u8; 256];
    for k in ks {
        t[*k as usize] = 1;
    }
    t
}

// The word's code names an edgel of the grid, and its level is in the table.
pub fn word_fits(g: Grid, t: &[u8; 256], u: u32) -> bool
    ensures { result ≡ word_fits eight g.size.width g.size.height t.now u }
{
    let k = level_of(u) as usize;
    on_grid(g, code_of(u)) & (t[k] != 0)
}

// The first word that is bad for either reason, or the length.
pub fn first_bad_word(size: Size, ks: &[u8], ws: &[u32]) -> usize
    ensures { result ≡ first_at (bad_word eight size.width size.height ks.now) ws.now }
{
    let g = grid_of(size);
    let t = level_table(ks);
    ws.iter()
        .position(|u| !word_fits(g, &t, *u))
        .unwrap_or(ws.len())
}
