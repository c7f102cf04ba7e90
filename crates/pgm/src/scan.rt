// The header, byte by byte: gaps, numbers, and where it gave up.
ghost use Rattle.std.specs.Prelude.{◌≡◌, ◌+◌, ◌-◌, ◌*◌, ◌≤◌, length, IfOk, MatchResult};
ghost use Rattle.pgm.specs.Grammar.{is_end, is_white, in_gap, opened};
ghost use Rattle.pgm.specs.Reader.{gap_end, number_at, field_at, stop, is_form, MagicRead, head_of, cap, capped, capped_head, number_told, head_told};

use crate::cursor::Cursor;
use crate::{Head, Number};
use form::byte_at;

// LF or CR.
fn is_end(b: u8) -> bool
    ensures { result ≡ is_end b }
{
    matches!(b, b'\n' | b'\r')
}

// Blank, TAB, LF or CR.
pub fn is_white(b: u8) -> bool
    ensures { result ≡ is_white b }
{
    matches!(b, b' ' | b'\t') || is_end(b)
}

// The byte belongs to a gap, with a comment open before it or not.
// A bool, as in the definitions in_gap and opened: a comment is open or not.
fn in_gap(comment: bool, b: u8) -> bool
    ensures { result ≡ in_gap comment b }
{
    comment || is_white(b) || b == b'#'
}

// A comment is open after the byte.
fn opened(comment: bool, b: u8) -> bool
    ensures { result ≡ opened comment b }
{
    if comment { !is_end(b) } else { b == b'#' }
}

// The end of the gap that begins here.
fn gap_end<'a>(c: Cursor<'a>) -> Cursor<'a>
    ensures { (result.at ≡ gap_end c.entry.bytes.now c.entry.at) × (result.bytes.now ≡ c.entry.bytes.now) }
{
    let bytes = c.bytes;
    let mut comment = false;
    for at in c.at..bytes.len() {
        if !in_gap(comment, bytes[at]) {
            return Cursor { bytes, at };
        }
        comment = opened(comment, bytes[at]);
    }
    Cursor {
        bytes,
        at: bytes.len(),
    }
}

// The greatest maximum that is read.
const MOST: usize = 255;

// The greatest value that is told from a greater one.
const FITS: usize = 65535;

// One digit more, as far as the value matters.
fn more(v: usize, b: u8) -> usize
    requires { (v ≤ 65535) × (48 ≤ b) × (b ≤ 57) }
    ensures { (result ≡ cap (v * 10 + (b - 48))) × (result ≤ 65535) }
{
    (v * 10 + usize::from(b - b'0')).min(FITS)
}

// The number whose digits begin at `first` and end before `next`, if there are any.
fn found(first: usize, value: usize, next: usize) -> Result<Number, usize>
    ensures { result ≡ number_told (record { first = first; value = value; next = next }) }
{
    if first < next {
        Ok(Number { first, value, next })
    } else {
        Err(first)
    }
}

// The number that begins here.
pub fn number_at(c: Cursor<'_>) -> Result<Number, usize>
    ensures { (result ≡ number_told (capped (number_at c.entry.bytes.now c.entry.at))) × IfOk result (λ n. n.next ≤ length c.entry.bytes.now) }
{
    let mut value = 0;
    for i in c.at..c.bytes.len() {
        if !c.bytes[i].is_ascii_digit() {
            return found(c.at, value, i);
        }
        value = more(value, c.bytes[i]);
    }
    found(c.at, value, c.bytes.len())
}

// The header's number after the gap that begins here.
fn field_at(c: Cursor<'_>) -> Result<Number, usize>
    ensures { (result ≡ number_told (capped (field_at c.entry.bytes.now c.entry.at))) × IfOk result (λ n. n.next ≤ length c.entry.bytes.now) }
{
    number_at(gap_end(c))
}

// "5" or "2".
fn is_form(b: u8) -> bool
    ensures { result ≡ is_form b }
{
    matches!(b, b'5' | b'2')
}

// "P5" or "P2" and a byte of a gap: whether it is "P2", or the byte at which it gave up.
fn read_magic(s: &[u8]) -> Result<bool, usize>
    ensures { MatchResult result (λ plain. MagicRead s.now plain) (λ p. head_of s.now ≡ stop p) }
{
    if byte_at(s, 0) != b'P' {
        return Err(0);
    }
    let form = byte_at(s, 1);
    if !is_form(form) {
        return Err(1);
    }
    if !in_gap(false, byte_at(s, 2)) {
        return Err(2);
    }
    Ok(form == b'2')
}

// Reads the header.
pub fn read_head(s: &[u8]) -> Result<Head, usize>
    ensures { (result ≡ head_told (capped_head (head_of s.now))) × IfOk result (λ h. h.at ≤ length s.now) }
{
    let plain = read_magic(s)?;
    let width = field_at(Cursor { bytes: s, at: 2 })?;
    let height = field_at(Cursor {
        bytes: s,
        at: width.next,
    })?;
    let maximum = field_at(Cursor {
        bytes: s,
        at: height.next,
    })?;
    if maximum.value < 1 || MOST < maximum.value {
        return Err(maximum.first);
    }
    if !is_white(byte_at(s, maximum.next)) {
        return Err(maximum.next);
    }
    Ok(Head {
        plain,
        width: width.value,
        height: height.value,
        maximum: maximum.value as u8,
        at: maximum.next + 1,
    })
}
