// Refusals: a call's verdict and answer, and the verdicts of the rows that calls begin with.
#![tactic(auto)]

mod fit;
mod hot;
mod reason;
mod size;

ghost use Rattle.std.specs.Prelude.{◌≡◌, [], ◌∷◌, ◌*◌, length, IfOk};
ghost use Rattle.matte.specs.Layout.{eight};
ghost use Rattle.matte.specs.Picture.{picture};
ghost use Rattle.refuse.specs.Refusal.{row_at, verdict, answer, sides_row};
ghost use Rattle.refuse.specs.Told.{number_of, verdict_of};
ghost use Rattle.refuse.specs.Hot.{border_rows};
ghost use Rattle.refuse.specs.Shape.{shape_rows, level_rows, ground_rows, size_rows};

pub use fit::{levels_fit, sides_fit};
use hot::{edge_of, hot_at};
pub use reason::{Reason, Refusal};
pub use size::Size;

// What a call answers: the refusal's number (0 is done) and place, and the words and lines handed over. Numbers, since C reads the record as it stands.
#[repr(C)]
#[derive(Clone, Copy)]
pub struct Answer {
    pub number: u32,
    pub place: usize,
    pub words: usize,
    pub lines: usize,
}

impl Answer {
    // The answer of a call that is done, and hands these words and lines over.
    pub fn done(words: usize, lines: usize) -> Self
        ensures { result ≡ record { number = 0; place = 0; words = words; lines = lines } }
    {
        Answer {
            number: 0,
            place: 0,
            words,
            lines,
        }
    }

    // The answer of a call that is refused.
    pub fn refused(r: Refusal) -> Self
        ensures { result ≡ record { number = number_of r.reason; place = r.place; words = 0; lines = 0 } }
    {
        Answer {
            number: r.reason.number(),
            place: r.place,
            words: 0,
            lines: 0,
        }
    }

    // The verdict of one row, whatever its number: one that stands for no reason here too.
    pub fn of_row(number: u32, given: bool, place: usize) -> Self
        ensures { result ≡ record { number = (verdict (row_at number given place ∷ [])).number; place = (verdict (row_at number given place ∷ [])).place; words = 0; lines = 0 } }
    {
        let mut told = Answer::done(0, 0);
        if given {
            told.number = number;
            told.place = place;
        }
        told
    }
}

// Refused for this reason, if the row is given.
pub fn row_verdict(reason: Reason, given: bool, place: usize) -> Result<(), Refusal>
    ensures { verdict_of result ≡ verdict (row_at (number_of reason) given place ∷ []) }
{
    if given {
        return Err(Refusal { reason, place });
    }
    Ok(())
}

// 1.
pub fn sides_verdict(w: usize, h: usize) -> Result<Size, Refusal>
    ensures { (verdict_of result ≡ verdict (sides_row w h ∷ [])) × IfOk result (λ s. (s.width ≡ w) × (s.height ≡ h)) }
{
    row_verdict(Reason::Sides, !sides_fit(w, h), 0)?;
    Ok(Size {
        width: w,
        height: h,
    })
}

// 1 2.
pub fn shape_verdict(w: usize, h: usize, px: &[u8]) -> Result<Size, Refusal>
    ensures { (verdict_of result ≡ verdict (shape_rows (picture w h px.now))) × IfOk result (λ s. (s.width ≡ w) × (s.height ≡ h) × (length px.now ≡ w * h)) }
{
    let size = sides_verdict(w, h)?;
    row_verdict(Reason::Samples, px.len() != size.area(), 0)?;
    Ok(size)
}

// 1 2 3.
pub fn level_verdict(w: usize, h: usize, px: &[u8], ks: &[u8]) -> Result<Size, Refusal>
    ensures { (verdict_of result ≡ verdict (level_rows eight (picture w h px.now) ks.now)) × IfOk result (λ s. (s.width ≡ w) × (s.height ≡ h) × (length px.now ≡ w * h)) }
{
    let size = shape_verdict(w, h, px)?;
    row_verdict(Reason::Levels, !levels_fit(ks), 0)?;
    Ok(size)
}

// 4 17 18 19, of a picture that none of 1 and 2 is given for.
fn border_verdict(size: Size, px: &[u8]) -> Result<(), Refusal>
    requires { length px.now ≡ size.width * size.height }
    ensures { verdict_of result ≡ verdict (border_rows (picture size.width size.height px.now)) }
{
    let i = hot_at(size, px);
    if i < px.len() {
        return Err(Refusal {
            reason: edge_of(size, i),
            place: i,
        });
    }
    Ok(())
}

// 1 2 3 4 17 18 19.
pub fn ground_verdict(w: usize, h: usize, px: &[u8], ks: &[u8]) -> Result<Size, Refusal>
    ensures { (verdict_of result ≡ verdict (ground_rows eight (picture w h px.now) ks.now)) × IfOk result (λ s. (s.width ≡ w) × (s.height ≡ h) × (length px.now ≡ w * h)) }
{
    let size = level_verdict(w, h, px, ks)?;
    border_verdict(size, px)?;
    Ok(size)
}

// 1 3.
pub fn size_verdict(w: usize, h: usize, ks: &[u8]) -> Result<Size, Refusal>
    ensures { (verdict_of result ≡ verdict (size_rows eight w h ks.now)) × IfOk result (λ s. (s.width ≡ w) × (s.height ≡ h)) }
{
    let size = sides_verdict(w, h)?;
    row_verdict(Reason::Levels, !levels_fit(ks), 0)?;
    Ok(size)
}
