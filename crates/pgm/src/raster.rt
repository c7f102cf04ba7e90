// The samples after the header: what is refused of them, and writing them.
ghost use Rattle.std.specs.Prelude.{◌≡◌, true, false, ◌++◌, ℕ, ◌+◌, ◌≤◌, leb, length, get_or, drop, IfOk};
ghost use Rattle.tally.specs.Tally.{every};
ghost use Rattle.refuse.specs.Told.{verdict_of};
ghost use Rattle.pgm.specs.Reader.{white_end, plain_at, capped, number_told, raster_from, samples_from};

use crate::Number;
use crate::cursor::Cursor;
use crate::scan::{is_white, number_at};
use refuse::{Reason, Refusal};

// The samples of a file: where they begin, how many there are, the most that one may be, and whether they are written in digits (P2) or as bytes (P5).
#[derive(Clone, Copy)]
pub struct Raster<'a> {
    pub from: Cursor<'a>,
    pub count: usize,
    pub maximum: u8,
    pub plain: bool,
}

// The end of the white space that begins here.
fn white_end<'a>(c: Cursor<'a>) -> Cursor<'a>
    ensures { (result.at ≡ white_end c.entry.bytes.now c.entry.at) × (result.bytes.now ≡ c.entry.bytes.now) }
{
    let bytes = c.bytes;
    for at in c.at..bytes.len() {
        if !is_white(bytes[at]) {
            return Cursor { bytes, at };
        }
    }
    Cursor {
        bytes,
        at: bytes.len(),
    }
}

// P2: the sample after the white space that begins here.
fn plain_at(c: Cursor<'_>) -> Result<Number, usize>
    ensures { (result ≡ number_told (capped (plain_at c.entry.bytes.now c.entry.at))) × IfOk result (λ n. n.next ≤ length c.entry.bytes.now) }
{
    number_at(white_end(c))
}

// The bytes are all at most m, as bytes are for 255.
fn all_fit(s: &[u8], m: u8) -> bool
    ensures { result ≡ every (λ j. leb (get_or s.now j 0) m) (length s.now) }
{
    if m == u8::MAX {
        return true;
    }
    let mut fit = true;
    for b in s {
        fit &= *b <= m;
    }
    fit
}

// P5: what is refused of the samples, looked at one by one.
fn raw_stop(r: Raster<'_>) -> Result<(), Refusal>
    ensures { verdict_of result ≡ raster_from r.entry.from.bytes.now false r.entry.maximum r.entry.count r.entry.from.at }
{
    let Cursor { bytes, at } = r.from;
    let there = r.count.min(bytes.len() - at);
    for i in at..at + there {
        if r.maximum < bytes[i] {
            return Err(Refusal {
                reason: Reason::AboveMaximum,
                place: i,
            });
        }
    }
    if there < r.count {
        return Err(Refusal {
            reason: Reason::NoSample,
            place: bytes.len(),
        });
    }
    Ok(())
}

// P5: what is refused of the samples; where nothing is, found many bytes at a time.
fn raw_verdict(r: Raster<'_>) -> Result<(), Refusal>
    ensures { verdict_of result ≡ raster_from r.entry.from.bytes.now false r.entry.maximum r.entry.count r.entry.from.at }
{
    let Cursor { bytes, at } = r.from;
    if bytes.len() - at < r.count || !all_fit(&bytes[at..at + r.count], r.maximum) {
        return raw_stop(r);
    }
    Ok(())
}

// P2: what is refused of the samples.
fn plain_verdict(r: Raster<'_>) -> Result<(), Refusal>
    ensures { verdict_of result ≡ raster_from r.entry.from.bytes.now true r.entry.maximum r.entry.count r.entry.from.at }
{
    let bytes = r.from.bytes;
    let mut at = r.from.at;
    for _done in 0..r.count {
        let sample = match plain_at(Cursor { bytes, at }) {
            Ok(sample) => sample,
            Err(place) => {
                return Err(Refusal {
                    reason: Reason::NoSample,
                    place,
                });
            }
        };
        if usize::from(r.maximum) < sample.value {
            return Err(Refusal {
                reason: Reason::AboveMaximum,
                place: sample.first,
            });
        }
        at = sample.next;
    }
    Ok(())
}

// What is refused of the samples.
pub fn raster_verdict(r: Raster<'_>) -> Result<(), Refusal>
    ensures { verdict_of result ≡ raster_from r.entry.from.bytes.now r.entry.plain r.entry.maximum r.entry.count r.entry.from.at }
{
    if r.plain {
        plain_verdict(r)
    } else {
        raw_verdict(r)
    }
}

// Copies all of `from` over `to`. A function of its own with a loop: here it is known that the two do not overlap, which copy_from_slice does not tell.
#[inline(never)]
fn copy(to: &mut [u8], from: &[u8])
    requires { length to.old ≡ length from.now }
    ensures len { length to.new ≡ length to.old }
    ensures after { to.new ≡ from.now }
{
    for i in 0..to.len() {
        to[i] = from[i];
    }
}

// P5: copies the samples.
// A clause says that the room holds the samples: it is lent, and may be longer.
fn write_raw(r: Raster<'_>, room: &mut [u8])
    requires { (r.from.at + r.count ≤ length r.from.bytes.now) × (r.count ≤ length room.old) }
    ensures { room.new ≡ samples_from r.entry.from.bytes.now false r.entry.count r.entry.from.at ++ drop r.entry.count room.old }
{
    let Cursor { bytes, at } = r.from;
    copy(&mut room[..r.count], &bytes[at..at + r.count]);
}

// P2: writes the samples, none of which is refused.
fn write_plain(r: Raster<'_>, room: &mut [u8])
    requires { ((raster_from r.from.bytes.now true r.maximum r.count r.from.at).number ≡ 0) × (r.count ≤ length room.old) }
    ensures { room.new ≡ samples_from r.entry.from.bytes.now true r.entry.count r.entry.from.at ++ drop r.entry.count room.old }
{
    let bytes = r.from.bytes;
    let mut at = r.from.at;
    for place in room[..r.count].iter_mut() {
        let sample = plain_at(Cursor { bytes, at }).unwrap();
        *place = sample.value as u8;
        at = sample.next;
    }
}

// Writes the samples, none of which is refused.
pub fn write_samples(r: Raster<'_>, room: &mut [u8])
    requires { ((raster_from r.from.bytes.now r.plain r.maximum r.count r.from.at).number ≡ 0) × (r.count ≤ length room.old) }
    ensures { room.new ≡ samples_from r.entry.from.bytes.now r.entry.plain r.entry.count r.entry.from.at ++ drop r.entry.count room.old }
{
    if r.plain {
        write_plain(r, room);
    } else {
        write_raw(r, room);
    }
}
