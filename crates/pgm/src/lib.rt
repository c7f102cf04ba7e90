// Reads a PGM file, P5 or P2, up to a maximum of 255, into lent room.
#![tactic(auto)]

mod cursor;
mod raster;
mod scan;

ghost use Rattle.std.specs.Prelude.{◌≡◌, Ok, not, [], ◌∷◌, ◌*◌, ◌≤◌, eqb, ltb, length, IfOk};
ghost use Rattle.refuse.specs.Refusal.{row, row_at, verdict, sides_row};
ghost use Rattle.refuse.specs.Told.{number_of, verdict_of};
ghost use Rattle.pgm.specs.Reader.{head_of, capped_head, head_told};
ghost use Rattle.pgm.specs.Call.{pgm_raster, PgmCall};

use cursor::Cursor;
use raster::{Raster, raster_verdict, write_samples};
use refuse::{Answer, Reason, Refusal, row_verdict, sides_verdict};
use scan::read_head;

// A number: its first byte, its value, and the byte after it.
#[derive(Clone, Copy)]
pub struct Number {
    pub first: usize,
    pub value: usize,
    pub next: usize,
}

// The header: its form, sides and maximum, and where the samples begin.
#[derive(Clone, Copy)]
pub struct Head {
    pub plain: bool,
    pub width: usize,
    pub height: usize,
    pub maximum: u8,
    pub at: usize,
}

// The answer of the call: where done, the sides and the maximum.
#[repr(C)]
#[derive(Clone, Copy)]
pub struct Grey {
    pub answer: Answer,
    pub width: u32,
    pub height: u32,
    pub maximum: u32,
}

// The first refusal of 1 9 23 24 that applies, of a file with a header; its samples where none does.
fn pgm_verdict<'a>(file: &'a [u8], h: Head, places: usize) -> Result<Raster<'a>, Refusal>
    requires { (Ok h ≡ head_told (capped_head (head_of file.now))) × (h.at ≤ length file.now) }
    ensures refused { verdict_of result ≡ verdict (row_at 22 (not (head_of file.now).ok) (head_of file.now).at ∷ sides_row (head_of file.now).width (head_of file.now).height ∷ row 9 (ltb places ((head_of file.now).width * (head_of file.now).height)) ∷ row_at 23 (eqb (pgm_raster file.now (head_of file.now)).number 23) (pgm_raster file.now (head_of file.now)).place ∷ row_at 24 (eqb (pgm_raster file.now (head_of file.now)).number 24) (pgm_raster file.now (head_of file.now)).place ∷ []) }
    ensures samples { IfOk result (λ r. (r.from.bytes.now ≡ file.now) × (r.from.at ≡ h.at) × (r.count ≡ h.width * h.height) × (r.maximum ≡ h.maximum) × (r.plain ≡ h.plain)) }
{
    let size = sides_verdict(h.width, h.height)?;
    let count = size.area();
    row_verdict(Reason::Room, places < count, 0)?;
    let raster = Raster {
        from: Cursor {
            bytes: file,
            at: h.at,
        },
        count,
        maximum: h.maximum,
        plain: h.plain,
    };
    raster_verdict(raster)?;
    Ok(raster)
}

// The answer of a call that is refused.
fn refused(r: Refusal) -> Grey
    ensures { result ≡ record { answer = record { number = number_of r.reason; place = r.place; words = 0; lines = 0 }; width = 0; height = 0; maximum = 0 } }
{
    Grey {
        answer: Answer::refused(r),
        width: 0,
        height: 0,
        maximum: 0,
    }
}

// Reads a PGM file: its samples, as they are, go to the first w·h places of `room`.
pub fn read_pgm(file: &[u8], room: &mut [u8]) -> Grey
    ensures { PgmCall file.now room.old result room.new }
{
    let h = match read_head(file) {
        Ok(h) => h,
        Err(place) => {
            return refused(Refusal {
                reason: Reason::PgmHeader,
                place,
            });
        }
    };
    let raster = match pgm_verdict(file, h, room.len()) {
        Ok(raster) => raster,
        Err(r) => return refused(r),
    };
    write_samples(raster, room);
    Grey {
        answer: Answer::done(0, 0),
        width: h.width as u32,
        height: h.height as u32,
        maximum: u32::from(h.maximum),
    }
}
