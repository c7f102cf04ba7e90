// The base calls as C takes them: thin, each with the call's own contract. The crate host_c gives them to C.
#![tactic(auto)]

ghost use Rattle.std.specs.Prelude.{◌≡◌};
ghost use Rattle.matte.specs.Layout.{eight};
ghost use Rattle.matte.specs.Picture.{picture};
ghost use Rattle.outline.specs.List.{ListCall};
ghost use Rattle.enclosure.specs.Call.{TreeCall};
ghost use Rattle.crossing.specs.Crossing.{crossing_answer};
ghost use Rattle.piece.specs.Piece.{told, piece_answer};
ghost use Rattle.frame.specs.Frame.{FrameCall};
ghost use Rattle.paint.specs.Member.{member_answer};
ghost use Rattle.paint.specs.Paint.{PaintCall};
ghost use Rattle.olr.specs.File.{WriteCall};
ghost use Rattle.olr.specs.Read.{ReadCall};
ghost use Rattle.pgm.specs.Call.{PgmCall};
ghost use Rattle.host.specs.Piece.{told_piece};
ghost use Rattle.host.specs.Part.{part_place};

use crossing::{Crossing, crossing_at};
use frame::frame_picture;
use olr::{Stored, read_file, write_file};
use paint::{Membership, line_part, member, paint_words, start_of};
use pgm::{Grey, read_pgm};
use piece::{Found, Piece, piece_at};
use refuse::Answer;
use trace::list;
use tree::tree;

// The piece call's answer as plain numbers, which C reads as they stand.
#[repr(C)]
#[derive(Clone, Copy)]
pub struct ToldPiece {
    pub answer: Answer,
    pub kind: u32,
    pub xs: f64,
    pub ys: f64,
    pub delta: f64,
}

// Where a line stands in the caller's list, and how many words it has.
#[repr(C)]
#[derive(Clone, Copy)]
pub struct LinePlace {
    pub start: usize,
    pub count: usize,
}

fn told(f: Found) -> ToldPiece
    ensures { result ≡ told_piece (told f) }
{
    let a = f.answer;
    let p = f.piece;
    match p {
        Piece::Refused => ToldPiece {
            answer: a,
            kind: 0,
            xs: 0u32 as f64,
            ys: 0u32 as f64,
            delta: 0u32 as f64,
        },
        Piece::Straight => ToldPiece {
            answer: a,
            kind: 1,
            xs: 0u32 as f64,
            ys: 0u32 as f64,
            delta: 0u32 as f64,
        },
        Piece::Corner(z) => ToldPiece {
            answer: a,
            kind: 2,
            xs: z.xs,
            ys: z.ys,
            delta: 0u32 as f64,
        },
        Piece::Branch(z, d) => ToldPiece {
            answer: a,
            kind: 3,
            xs: z.xs,
            ys: z.ys,
            delta: d,
        },
    }
}

pub fn loafcanyon_list(
    w: usize,
    h: usize,
    px: &[u8],
    levels: &[u8],
    work: &mut [u8],
    words: &mut [u32],
) -> Answer
    ensures { ListCall eight (picture w h px.now) levels.now work.old words.old result work.new words.new }
{
    list(w, h, px, levels, work, words)
}

pub fn loafcanyon_tree(
    w: usize,
    h: usize,
    px: &[u8],
    levels: &[u8],
    work: &mut [u8],
    words: &mut [u32],
    places: &mut [u32],
) -> Answer
    ensures { TreeCall eight (picture w h px.now) levels.now work.old words.old places.old result work.new words.new places.new }
{
    tree(w, h, px, levels, work, words, places)
}

pub fn loafcanyon_crossing(w: usize, h: usize, px: &[u8], level: u8, code: u32) -> Crossing
    ensures { result ≡ crossing_answer eight (picture w h px.now) level code }
{
    crossing_at(w, h, px, level, code)
}

pub fn loafcanyon_piece(w: usize, h: usize, px: &[u8], level: u8, x: usize, y: usize) -> ToldPiece
    ensures { result ≡ told_piece (piece_answer eight (picture w h px.now) level x y) }
{
    told(piece_at(w, h, px, level, x, y))
}

pub fn loafcanyon_frame(w: usize, h: usize, px: &[u8], room: &mut [u8]) -> Answer
    ensures { FrameCall eight (picture w h px.now) room.old result room.new }
{
    frame_picture(w, h, px, room)
}

pub fn loafcanyon_part(words: &[u32], n: usize) -> LinePlace
    ensures { result ≡ part_place n words.now }
{
    let a = start_of(words, n);
    let p = line_part(words, n);
    LinePlace {
        start: a,
        count: p.len(),
    }
}

pub fn loafcanyon_member(
    w: usize,
    h: usize,
    words: &[u32],
    n: usize,
    x: usize,
    y: usize,
) -> Membership
    ensures { result ≡ member_answer eight w h words.now n x y }
{
    member(w, h, words, n, x, y)
}

pub fn loafcanyon_paint(
    w: usize,
    h: usize,
    v: u8,
    levels: &[u8],
    words: &[u32],
    room: &mut [u8],
) -> Answer
    ensures { PaintCall eight w h v levels.now words.now room.old result room.new }
{
    paint_words(w, h, v, levels, words, room)
}

pub fn loafcanyon_write(
    w: usize,
    h: usize,
    v: u8,
    levels: &[u8],
    words: &[u32],
    file: &mut [u8],
) -> Answer
    ensures { WriteCall w h v levels.now words.now file.old result file.new }
{
    write_file(w, h, v, levels, words, file)
}

pub fn loafcanyon_read(file: &[u8], words: &mut [u32]) -> Stored
    ensures { ReadCall file.now words.old result words.new }
{
    read_file(file, words)
}

pub fn loafcanyon_pgm(file: &[u8], room: &mut [u8]) -> Grey
    ensures { PgmCall file.now room.old result room.new }
{
    read_pgm(file, room)
}
