// The text that the listing program prints, put into a lent buffer piece by piece. Each piece is put at a place and hands back the next one.
#![tactic(auto)]

ghost use Rattle.std.specs.Prelude.{◌≡◌, [], ◌∷◌, ◌++◌, ◌+◌, ◌*◌, ◌/◌, ◌%◌, ◌≤◌, ◌<◌, length, get_or};
ghost use Rattle.matte.specs.Layout.{eight};
ghost use Rattle.matte.specs.Picture.{picture};
ghost use Rattle.edgel.specs.Word.{flagged};
ghost use Rattle.form.specs.Decimal.{decimal};
ghost use Rattle.text.specs.Put.{Put};
ghost use Rattle.text.specs.Listing.{field, letter, kind_letter, row_text, first_text, line_text, word_text, start_text, words_text, refused_text, not_form_text};

use crossing::passage_at;
use edgel::{Heading, code_of, flagged, level_of};
use form::byte_at;
use words::run_of;

// One byte.
fn put_byte(out: &mut [u8], at: usize, b: u8) -> usize
    requires { at < length out.old }
    ensures { Put out.old at (b ∷ []) result out.new }
{
    out[at] = b;
    at + 1
}

// Two digits.
fn put_two(out: &mut [u8], at: usize, n: usize) -> usize
    requires { (n < 100) × (at + 2 ≤ length out.old) }
    ensures { Put out.old at ((48 + n / 10) ∷ (48 + n % 10) ∷ []) result out.new }
{
    let a = put_byte(out, at, b'0' + (n / 10) as u8);
    put_byte(out, a, b'0' + (n % 10) as u8)
}

// A number below 1,000 in decimal.
// Clauses say that what is put fits: each piece has a length of its own.
fn put_short(out: &mut [u8], at: usize, n: usize) -> usize
    requires { (n < 1000) × (at + length (decimal n) ≤ length out.old) }
    ensures { Put out.old at (decimal n) result out.new }
{
    if n < 10 {
        put_byte(out, at, b'0' + n as u8)
    } else if n < 100 {
        put_two(out, at, n)
    } else {
        let a = put_byte(out, at, b'0' + (n / 100) as u8);
        put_two(out, a, n % 100)
    }
}

// A number in decimal, digit by digit.
fn put_long(out: &mut [u8], at: usize, n: usize) -> usize
    requires { at + length (decimal n) ≤ length out.old }
    ensures { Put out.old at (decimal n) result out.new }
{
    if n < 10 {
        return put_byte(out, at, b'0' + n as u8);
    }
    let a = put_long(out, at, n / 10);
    put_byte(out, a, b'0' + (n % 10) as u8)
}

// A number in decimal. Most of them are short.
fn put_number(out: &mut [u8], at: usize, n: usize) -> usize
    requires { at + length (decimal n) ≤ length out.old }
    ensures { Put out.old at (decimal n) result out.new }
{
    if n < 1000 {
        put_short(out, at, n)
    } else {
        put_long(out, at, n)
    }
}

// A number, and a byte after it.
fn put_field(out: &mut [u8], at: usize, n: usize, b: u8) -> usize
    requires { at + length (field n b) ≤ length out.old }
    ensures { Put out.old at (field n b) result out.new }
{
    let a = put_number(out, at, n);
    put_byte(out, a, b)
}

// A letter, and a space after it.
fn put_letter(out: &mut [u8], at: usize, b: u8) -> usize
    requires { at + 2 ≤ length out.old }
    ensures { Put out.old at (b ∷ 32 ∷ []) result out.new }
{
    let a = put_byte(out, at, b);
    put_byte(out, a, b' ')
}

// The first row: sides, border, and how many levels, words and lines.
fn put_first(
    out: &mut [u8],
    at: usize,
    w: usize,
    h: usize,
    border: u8,
    levels: usize,
    words: usize,
    lines: usize,
) -> usize
    requires { at + length (first_text w h border levels words lines) ≤ length out.old }
    ensures { Put out.old at (first_text w h border levels words lines) result out.new }
{
    let a = put_field(out, at, w, b' ');
    let b = put_field(out, a, h, b' ');
    let c = put_field(out, b, border as usize, b' ');
    let d = put_field(out, c, levels, b' ');
    let e = put_field(out, d, words, b' ');
    put_field(out, e, lines, b'\n')
}

// The row of a crossing: its edgel's left or top end, its heading's letter, its fraction.
fn put_row(out: &mut [u8], at: usize, x: usize, y: usize, g: u8, num: usize, den: usize) -> usize
    requires { at + length (row_text x y g num den) ≤ length out.old }
    ensures { Put out.old at (row_text x y g num den) result out.new }
{
    let a = put_field(out, at, x, b' ');
    let b = put_field(out, a, y, b' ');
    let c = put_letter(out, b, g);
    let d = put_field(out, c, num, b' ');
    put_field(out, d, den, b'\n')
}

// The letter of a tree entry's kind.
fn kind_letter(entry: u32) -> u8
    ensures { result ≡ kind_letter (flagged eight entry) }
{
    if flagged(entry) { b'D' } else { b'U' }
}

// The row of a line: its number, its level, its tree entry without the kind, its kind, its number of crossings.
fn put_line(out: &mut [u8], at: usize, n: usize, k: u8, entry: u32, count: usize) -> usize
    requires { at + length (line_text eight n k entry count) ≤ length out.old }
    ensures { Put out.old at (line_text eight n k entry count) result out.new }
{
    let a = put_field(out, at, n, b' ');
    let b = put_field(out, a, k as usize, b' ');
    let c = put_field(out, b, (entry % 2147483648) as usize, b' ');
    let d = put_letter(out, c, kind_letter(entry));
    put_field(out, d, count, b'\n')
}

// The letter of a heading.
fn heading_letter(g: Heading) -> u8
    ensures { result ≡ letter g }
{
    match g {
        Heading::South => b'S',
        Heading::East => b'E',
        Heading::North => b'N',
        Heading::West => b'W',
    }
}

// The row of a word's crossing.
fn put_word(out: &mut [u8], at: usize, w: usize, h: usize, px: &[u8], u: u32) -> usize
    requires { (0 < w) × (w ≤ 2048) × (at + length (word_text eight (picture w h px.now) u) ≤ length out.old) }
    ensures { Put out.old at (word_text eight (picture w h px.now) u) result out.new }
{
    let c = code_of(u);
    let k = level_of(u);
    let i = (c / 2) as usize;
    let t = passage_at(w, h, px, k, c);
    let g = t.heading;
    put_row(
        out,
        at,
        i % w,
        i / w,
        heading_letter(g),
        t.num as usize,
        t.den as usize,
    )
}

// The row of the line that a word starts, if it is flagged; `rest` are the words after it.
fn put_start(out: &mut [u8], at: usize, n: usize, entries: &[u32], u: u32, rest: &[u32]) -> usize
    requires { at + length (start_text eight n entries.now u rest.now) ≤ length out.old }
    ensures { Put out.old at (start_text eight n entries.now u rest.now) result out.new }
{
    if !flagged(u) {
        return at;
    }
    let count = run_of(rest) + 1;
    put_line(
        out,
        at,
        n,
        level_of(u),
        entries.get(n).copied().unwrap_or(0),
        count,
    )
}

// The rows of all lines and their crossings.
fn put_words(
    out: &mut [u8],
    from: usize,
    w: usize,
    h: usize,
    px: &[u8],
    words: &[u32],
    entries: &[u32],
) -> usize
    requires { (0 < w) × (w ≤ 2048) × (from + length (words_text eight (picture w h px.now) 0 entries.now words.now) ≤ length out.old) }
    ensures { Put out.old from (words_text eight (picture w h px.now) 0 entries.now words.now) result out.new }
{
    let mut at = from;
    let mut n = 0;
    for (i, u) in words.iter().enumerate() {
        at = put_start(out, at, n, entries, *u, &words[i + 1..]);
        at = put_word(out, at, w, h, px, *u);
        n += usize::from(flagged(*u));
    }
    at
}

// The listing of a picture: the first row, then the rows of all lines and their crossings.
pub fn put_listing(
    out: &mut [u8],
    w: usize,
    h: usize,
    px: &[u8],
    levels: usize,
    words: &[u32],
    lines: usize,
    entries: &[u32],
) -> usize
    requires { (0 < w) × (w ≤ 2048)
        × (length (first_text w h (get_or px.now 0 0) levels (length words.now) lines ++ words_text eight (picture w h px.now) 0 entries.now words.now) ≤ length out.old) }
    ensures { Put out.old 0
        (first_text w h (get_or px.now 0 0) levels (length words.now) lines ++ words_text eight (picture w h px.now) 0 entries.now words.now)
        result out.new }
{
    let at = put_first(out, 0, w, h, byte_at(px, 0), levels, words.len(), lines);
    put_words(out, at, w, h, px, words, entries)
}

// Bytes as they are.
fn put_bytes(out: &mut [u8], at: usize, t: &[u8]) -> usize
    requires { at + length t.now ≤ length out.old }
    ensures { Put out.old at t.now result out.new }
{
    let end = at + t.len();
    out[at..end].copy_from_slice(t);
    end
}

// The refusal of this number.
pub fn put_refused(out: &mut [u8], number: u32) -> usize
    requires { 20 ≤ length out.old }
    ensures { Put out.old 0 (refused_text number) result out.new }
{
    let at = put_bytes(out, 0, b"refused ");
    put_field(out, at, number as usize, b'\n')
}

// The refusal of input that is not of the form.
pub fn put_not_form(out: &mut [u8]) -> usize
    requires { 20 ≤ length out.old }
    ensures { Put out.old 0 not_form_text result out.new }
{
    put_bytes(out, 0, b"refused input\n")
}
