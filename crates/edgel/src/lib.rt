// Edgels, headings and words.
#![tactic(auto)]

ghost use Rattle.std.specs.Prelude.{◌≡◌, true, false, ◌+◌, ◌*◌, ◌≤◌, ◌<◌};
ghost use Rattle.matte.specs.Layout.{eight, layout_of};
ghost use Rattle.edgel.specs.Heading.{start, left, right, number};
ghost use Rattle.edgel.specs.Edgel.{edgel};
ghost use Rattle.edgel.specs.Word.{word, code_of, level_of, flagged};

// The four headings, in the order in which each is one place left of the one before.
#[derive(Clone, Copy, Debug, PartialEq, Eq)]
pub enum Heading {
    South,
    East,
    North,
    West,
}

impl Heading {
    // The start of the order.
    pub fn start() -> Self
        ensures { result ≡ start }
    {
        Heading::South
    }

    // One place forward in the order.
    pub fn left(self) -> Self
        ensures { result ≡ left self }
    {
        match self {
            Heading::South => Heading::East,
            Heading::East => Heading::North,
            Heading::North => Heading::West,
            Heading::West => Heading::South,
        }
    }

    // One place back in the order.
    pub fn right(self) -> Self
        ensures { result ≡ right self }
    {
        match self {
            Heading::South => Heading::West,
            Heading::East => Heading::South,
            Heading::North => Heading::East,
            Heading::West => Heading::North,
        }
    }

    // The place in the order.
    pub fn number(self) -> usize
        ensures { (result ≡ number self) × (result < 4) }
    {
        match self {
            Heading::South => 0,
            Heading::East => 1,
            Heading::North => 2,
            Heading::West => 3,
        }
    }
}

// The word of a crossing that is not the first of its line.
pub fn plain_word(code: u32, k: u8) -> u32
    requires { code < 8388608 }
    ensures { (result ≡ word eight code k false) × (result < 2147483648) }
{
    code + (k as u32) * 8388608
}

// The word of a line's first crossing.
pub fn first_word(code: u32, k: u8) -> u32
    requires { code < 8388608 }
    ensures { (result ≡ word eight code k true) × (2147483648 ≤ result) }
{
    plain_word(code, k) + 2147483648
}

// The code of a word.
pub fn code_of(u: u32) -> u32
    ensures { (result ≡ code_of eight u) × (result < 8388608) }
{
    code_in(false, u)
}

// The level of a word.
pub fn level_of(u: u32) -> u8
    ensures { result ≡ level_of eight u }
{
    level_in(false, u) as u8
}

// The code of a word of either width.
// The width is a value here, as in layout_of: nothing that has it as a type calls for it.
pub fn code_in(wide: bool, u: u32) -> u32
    ensures { (result ≡ code_of (layout_of wide) u) × (result < (layout_of wide).codes) }
{
    u % if wide { 2097152 } else { 8388608 }
}

// The level of a word of either width.
// A value here too, as for code_in.
pub fn level_in(wide: bool, u: u32) -> u16
    ensures { (result ≡ level_of (layout_of wide) u) × (result < (layout_of wide).levels) }
{
    if wide {
        (u / 2097152 % 1024) as u16
    } else {
        (u / 8388608 % 256) as u16
    }
}

// The word is the first of its line.
pub fn flagged(u: u32) -> bool
    ensures { result ≡ flagged eight u }
{
    2147483648 <= u
}
