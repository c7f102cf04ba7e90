// Reads the listing program's input: a line of levels, the header of a PGM, the samples.
#![tactic(auto)]

ghost use Rattle.std.specs.Prelude.{◌≡◌, ◌+◌, ◌*◌, ◌≤◌, ◌<◌, length, get_or, IfSome};
ghost use Rattle.form.specs.Reader.{number_of, number_told, stop, levels_of, levels_told, header_of, header_told, form_of, form_told};

// What reading finds: the sides, the number of levels, the levels with zeros after the last, and where the samples start.
#[derive(Drop)]
pub struct Form {
    pub width: usize,
    pub height: usize,
    pub count: usize,
    pub levels: [u8; 255],
    pub at: usize,
}

// A number, and of how many bytes it is.
#[derive(Drop)]
pub struct Number {
    pub value: usize,
    pub count: usize,
}

// The line of levels, and of how many bytes it is. There is no heap, so the levels stand in an array with their count beside them.
#[derive(Drop)]
pub struct Levels {
    pub count: usize,
    pub levels: [u8; 255],
    pub used: usize,
}

// The sides, and of how many bytes the header is.
#[derive(Drop)]
pub struct Header {
    pub width: usize,
    pub height: usize,
    pub used: usize,
}

// The byte at a place, 0 past the end.
pub fn byte_at(s: &[u8], i: usize) -> u8
    ensures { result ≡ get_or s.now i 0 }
{
    s.get(i).copied().unwrap_or(0)
}

// The number of `count` digits that make `value`, if there are any.
fn stopped(value: usize, count: usize) -> Option<Number>
    ensures { result ≡ number_told (stop value count) }
{
    if count == 0 {
        return None;
    }
    Some(Number { value, count })
}

// The decimal number that a slice begins with, at most `limit`.
fn read_number(s: &[u8], limit: usize) -> Option<Number>
    requires { limit ≤ 65535 }
    ensures { (result ≡ number_told (number_of limit s.now)) × IfSome result (λ n. (n.count ≤ length s.now) × (n.value ≤ limit)) }
{
    if byte_at(s, 0) == b'0' {
        return Some(Number { value: 0, count: 1 });
    }
    let mut value = 0;
    for (i, b) in s.iter().enumerate() {
        if !b.is_ascii_digit() {
            return stopped(value, i);
        }
        value = value * 10 + usize::from(*b - b'0');
        if limit < value {
            return None;
        }
    }
    stopped(value, s.len())
}

// The line of levels that a slice begins with.
fn read_levels(s: &[u8]) -> Option<Levels>
    ensures { (result ≡ levels_told (levels_of s.now)) × IfSome result (λ l. l.used ≤ length s.now) }
{
    let mut levels = [0; 255];
    if byte_at(s, 0) == b'\n' {
        return Some(Levels {
            count: 0,
            levels,
            used: 1,
        });
    }
    let mut used = 0;
    for n in 0..255 {
        let level = read_number(&s[used..], 255)?;
        levels[n] = level.value as u8;
        let after = byte_at(s, used + level.count);
        used += level.count + 1;
        if after == b'\n' {
            return Some(Levels {
                count: n + 1,
                levels,
                used,
            });
        }
        if after != b' ' {
            return None;
        }
    }
    None
}

// The header that a slice begins with.
fn read_header(s: &[u8]) -> Option<Header>
    ensures { (result ≡ header_told (header_of s.now)) × IfSome result (λ h. (h.used ≤ length s.now) × (h.width ≤ 65535) × (h.height ≤ 65535)) }
{
    if !s.starts_with(b"P5\n") {
        return None;
    }
    let width = read_number(&s[3..], 65535)?;
    let blank = 3 + width.count;
    if byte_at(s, blank) != b' ' {
        return None;
    }
    let height = read_number(&s[blank + 1..], 65535)?;
    let end = blank + 1 + height.count;
    if !s[end..].starts_with(b"\n255\n") {
        return None;
    }
    Some(Header {
        width: width.value,
        height: height.value,
        used: end + 5,
    })
}

// Reads the whole input.
pub fn read_form(input: &[u8]) -> Option<Form>
    ensures { result ≡ form_told (form_of input.now) }
{
    let Levels {
        count,
        levels,
        used,
    } = read_levels(input)?;
    let header = read_header(&input[used..])?;
    let samples = header.width * header.height;
    let at = used + header.used;
    if 16384 < samples || input.len() != at + samples {
        return None;
    }
    Some(Form {
        width: header.width,
        height: header.height,
        count,
        levels,
        at,
    })
}
