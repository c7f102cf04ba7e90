// The calls of the host crate as C's functions, each with the same contract.
#![tactic(auto)]

ghost use Rattle.std.specs.Prelude.{◌≡◌};
ghost use Rattle.matte.specs.Layout.{eight};
ghost use Rattle.matte.specs.Picture.{picture};
ghost use Rattle.outline.specs.List.{ListCall};
ghost use Rattle.enclosure.specs.Call.{TreeCall};
ghost use Rattle.crossing.specs.Crossing.{crossing_answer};
ghost use Rattle.frame.specs.Frame.{FrameCall};
ghost use Rattle.paint.specs.Member.{member_answer};
ghost use Rattle.paint.specs.Paint.{PaintCall};
ghost use Rattle.olr.specs.File.{WriteCall};
ghost use Rattle.olr.specs.Read.{ReadCall};
ghost use Rattle.pgm.specs.Call.{PgmCall};
ghost use Rattle.host.specs.Piece.{told_piece};
ghost use Rattle.host.specs.Part.{part_place};
ghost use Rattle.piece.specs.Piece.{piece_answer};

use crossing::Crossing;
use host::{LinePlace, ToldPiece};
use olr::Stored;
use paint::Membership;
use pgm::Grey;
use refuse::Answer;

#[unsafe(no_mangle)]
pub extern "C" fn loafcanyon_list(
    w: usize,
    h: usize,
    px: &[u8],
    levels: &[u8],
    work: &mut [u8],
    words: &mut [u32],
) -> Answer
    ensures { ListCall eight (picture w h px.now) levels.now work.old words.old result work.new words.new }
{
    host::loafcanyon_list(w, h, px, levels, work, words)
}

#[unsafe(no_mangle)]
pub extern "C" fn loafcanyon_tree(
    w: usize,
    h: usize,
    px: &[u8],
    levels: &[u8],
    work: &mut [u8],
    words: &mut [u32],
    places: &mut [u32],
) -> Answer
    ensures { TreeCall eight (picture w h px.now) levels.now work.old words.old places.old result work.new words.new places.new }
{
    host::loafcanyon_tree(w, h, px, levels, work, words, places)
}

#[unsafe(no_mangle)]
pub extern "C" fn loafcanyon_crossing(
    w: usize,
    h: usize,
    px: &[u8],
    level: u8,
    code: u32,
) -> Crossing
    ensures { result ≡ crossing_answer eight (picture w h px.now) level code }
{
    host::loafcanyon_crossing(w, h, px, level, code)
}

#[unsafe(no_mangle)]
pub extern "C" fn loafcanyon_piece(
    w: usize,
    h: usize,
    px: &[u8],
    level: u8,
    x: usize,
    y: usize,
) -> ToldPiece
    ensures { result ≡ told_piece (piece_answer eight (picture w h px.now) level x y) }
{
    host::loafcanyon_piece(w, h, px, level, x, y)
}

#[unsafe(no_mangle)]
pub extern "C" fn loafcanyon_frame(w: usize, h: usize, px: &[u8], room: &mut [u8]) -> Answer
    ensures { FrameCall eight (picture w h px.now) room.old result room.new }
{
    host::loafcanyon_frame(w, h, px, room)
}

#[unsafe(no_mangle)]
pub extern "C" fn loafcanyon_part(words: &[u32], n: usize) -> LinePlace
    ensures { result ≡ part_place n words.now }
{
    host::loafcanyon_part(words, n)
}

#[unsafe(no_mangle)]
pub extern "C" fn loafcanyon_member(
    w: usize,
    h: usize,
    words: &[u32],
    n: usize,
    x: usize,
    y: usize,
) -> Membership
    ensures { result ≡ member_answer eight w h words.now n x y }
{
    host::loafcanyon_member(w, h, words, n, x, y)
}

#[unsafe(no_mangle)]
pub extern "C" fn loafcanyon_paint(
    w: usize,
    h: usize,
    v: u8,
    levels: &[u8],
    words: &[u32],
    room: &mut [u8],
) -> Answer
    ensures { PaintCall eight w h v levels.now words.now room.old result room.new }
{
    host::loafcanyon_paint(w, h, v, levels, words, room)
}

#[unsafe(no_mangle)]
pub extern "C" fn loafcanyon_write(
    w: usize,
    h: usize,
    v: u8,
    levels: &[u8],
    words: &[u32],
    file: &mut [u8],
) -> Answer
    ensures { WriteCall w h v levels.now words.now file.old result file.new }
{
    host::loafcanyon_write(w, h, v, levels, words, file)
}

#[unsafe(no_mangle)]
pub extern "C" fn loafcanyon_read(file: &[u8], words: &mut [u32]) -> Stored
    ensures { ReadCall file.now words.old result words.new }
{
    host::loafcanyon_read(file, words)
}

#[unsafe(no_mangle)]
pub extern "C" fn loafcanyon_pgm(file: &[u8], room: &mut [u8]) -> Grey
    ensures { PgmCall file.now room.old result room.new }
{
    host::loafcanyon_pgm(file, room)
}
