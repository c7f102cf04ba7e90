// The outline file, written and read.
#![tactic(auto)]

mod get;
mod put;

ghost use Rattle.std.specs.Prelude.{◌≡◌};
ghost use Rattle.olr.specs.File.{WriteCall};
ghost use Rattle.olr.specs.Read.{ReadCall};

use get::{read_verdict, stored_of, take_words, word_count};
use put::{put_head, put_words, write_verdict};
use refuse::Answer;

// The first four bytes of a file.
const LETTERS: [u8; 4] = *b"OLR1";

// The words that a full block holds.
const WORDS: usize = 127;

// What reading hands back beside the words: sides, border value, number of levels, and the levels with zeros after the last.
#[repr(C)]
#[derive(Clone, Copy)]
pub struct Stored {
    pub answer: Answer,
    pub width: u32,
    pub height: u32,
    pub border: u32,
    pub count: u32,
    pub levels: [u8; 255],
}

// Writes the file of an outline list: sides, border value, levels and words.
pub fn write_file(
    w: usize,
    h: usize,
    v: u8,
    levels: &[u8],
    words: &[u32],
    file: &mut [u8],
) -> Answer
    ensures { WriteCall w h v levels.now words.now file.old result file.new }
{
    let size = match write_verdict(w, h, levels, words, &file[..]) {
        Ok(size) => size,
        Err(r) => return Answer::refused(r),
    };
    put_head(&mut file[0..512], size, v, levels, words.len());
    put_words(file, words);
    Answer::done(0, 0)
}

// Reads a file: its words into the first places, and what else it says.
pub fn read_file(file: &[u8], words: &mut [u32]) -> Stored
    ensures { ReadCall file.now words.old result words.new }
{
    let file = match read_verdict(file, &words[..]) {
        Ok(file) => file,
        Err(r) => {
            return Stored {
                answer: Answer::refused(r),
                width: 0,
                height: 0,
                border: 0,
                count: 0,
                levels: [0u8; 255],
            };
        }
    };
    let n = word_count(file);
    let lines = take_words(file, n, words);
    stored_of(file, n, lines)
}
