// The parts of a file as it is read: the checks, the layout, the refusals, levels and words.
ghost use Rattle.std.specs.Prelude.{◌≡◌, true, not, [], ◌∷◌, ◌&&◌, ◌++◌, ◌+◌, ◌-◌, ◌*◌, ◌/◌, ◌%◌, ◌≤◌, ◌<◌, eqb, leb, length, drop, replicate, IfOk};
ghost use Rattle.tally.specs.Tally.{one, tally, first_at, first_from};
ghost use Rattle.matte.specs.Layout.{eight};
ghost use Rattle.matte.specs.Picture.{side_fits, levels_fit};
ghost use Rattle.edgel.specs.Word.{flagged};
ghost use Rattle.words.specs.Fit.{bad_word, words_fit_row};
ghost use Rattle.refuse.specs.Refusal.{verdict};
ghost use Rattle.refuse.specs.Told.{verdict_of};
ghost use Rattle.block.specs.Block.{num2, num4};
ghost use Rattle.olr.specs.File.{limit, letters, blocks_for};
ghost use Rattle.olr.specs.Held.{Holds, stored};
ghost use Rattle.olr.specs.Read.{zeros, blocks, check_fits, file_width, file_height, file_count, file_word_count, file_levels, file_words, after_levels, after_words, laid_out, read_verdict};

use crate::put::{block_words, blocks_for};
use crate::{LETTERS, Stored, WORDS};
use block::{BLOCK, PAYLOAD, check_fits, check_two, num2_at, num4_at};
use edgel::flagged;
use refuse::{Answer, Reason, Refusal, Size, levels_fit, row_verdict, sides_fit};
use words::{grid_of, level_table, word_fits};

// The bytes of a file that has block 0.
#[derive(Clone, Copy)]
pub struct File<'a> {
    pub bytes: &'a [u8],
    pub ghost headed: { 512 ≤ length bytes.now },
}

// The first block whose check is wrong, or how many blocks there are. Blocks are summed two at a time, in step.
pub fn first_bad_block(file: &[u8]) -> usize
    ensures { result ≡ first_from (λ i. not (check_fits file.now i)) 0 (blocks file.now) }
{
    let n = file.len() / BLOCK;
    for k in 0..n / 2 {
        let i = 2 * k;
        let pair = &file[BLOCK * i..BLOCK * i + 2 * BLOCK];
        let two = check_two(i, &pair[0..PAYLOAD], i + 1, &pair[BLOCK..BLOCK + PAYLOAD]);
        if num4_at(pair, PAYLOAD) != two.first {
            return i;
        }
        if num4_at(pair, BLOCK + PAYLOAD) != two.second {
            return i + 1;
        }
    }
    if n % 2 == 1 && !check_fits(&file[BLOCK * (n - 1)..BLOCK * n], n - 1) {
        return n - 1;
    }
    n
}

// Every byte is zero.
pub fn all_zero(s: &[u8]) -> bool
    ensures { result ≡ zeros s.now }
{
    s.iter().all(|b| *b == 0)
}

// The most words that a file may count.
const LIMIT: usize = 16777215;

// How many words the file says it has.
pub fn word_count(file: File<'_>) -> usize
    ensures { result ≡ file_word_count file.entry.bytes.now }
{
    num4_at(file.bytes, 12) as usize
}

// Letters, the two zero bytes, the count of words and that of blocks.
pub fn counts_fit(file: File<'_>) -> bool
    ensures { result ≡ (eqb (num4 file.entry.bytes.now 0) (num4 letters 0) && (eqb (num2 file.entry.bytes.now 10) 0
        && (leb (file_word_count file.entry.bytes.now) limit && eqb (blocks file.entry.bytes.now) (1 + blocks_for (file_word_count file.entry.bytes.now))))) }
{
    let n = word_count(file);
    num4_at(file.bytes, 0) == u32::from_le_bytes(LETTERS)
        && num2_at(file.bytes, 10) == 0
        && n <= LIMIT
        && file.bytes.len() / BLOCK == 1 + blocks_for(n)
}

// How many levels the file says it has.
pub fn level_count(file: File<'_>) -> usize
    ensures { (result ≡ file_count file.entry.bytes.now) × (result < 256) }
{
    usize::from(file.bytes[9])
}

// Sides, levels and the zeros after them.
#[tactic(auto, using(crate::proofs::Laid::levels_part, crate::proofs::Laid::after_levels_lem))]
pub fn head_fits(file: File<'_>) -> bool
    ensures { result ≡ ((side_fits (file_width file.entry.bytes.now) && side_fits (file_height file.entry.bytes.now))
        && (levels_fit eight (file_levels file.entry.bytes.now) && zeros (after_levels file.entry.bytes.now))) }
{
    let m = 16 + level_count(file);
    sides_fit(
        num2_at(file.bytes, 4) as usize,
        num2_at(file.bytes, 6) as usize,
    ) && levels_fit(&file.bytes[16..m])
        && all_zero(&file.bytes[m..PAYLOAD])
}

// The zeros after the last word.
pub fn tail_fits(file: File<'_>) -> bool
    ensures { result ≡ zeros (after_words file.entry.bytes.now) }
{
    let r = word_count(file) % WORDS;
    let at = BLOCK * (file.bytes.len() / BLOCK - 1);
    r == 0 || all_zero(&file.bytes[at + 4 * r..at + PAYLOAD])
}

// The file keeps the layout.
#[tactic(auto, using(crate::proofs::Laid::laid_parts))]
pub fn laid_out(file: File<'_>) -> bool
    ensures { result ≡ laid_out file.entry.bytes.now }
{
    counts_fit(file) && head_fits(file) && tail_fits(file)
}

// The first word that is bad for its code or its level, or how many words there are.
pub fn first_bad(file: File<'_>, size: Size, n: usize) -> usize
    requires { Holds file.bytes.now n }
    ensures { result ≡ first_at (bad_word eight size.width size.height (file_levels file.entry.bytes.now)) (file_words file.entry.bytes.now) }
{
    let g = grid_of(size);
    let t = level_table(&file.bytes[16..16 + level_count(file)]);
    // By block, then by word: with a division for each word's place, reading takes half as long again.
    for b in 0..blocks_for(n) {
        let block = &file.bytes[BLOCK * (1 + b)..];
        for j in 0..block_words(b, n) {
            if !word_fits(g, &t, num4_at(block, 4 * j)) {
                return WORDS * b + j;
            }
        }
    }
    n
}

// The words into the first places; how many are flagged.
pub fn take_words(file: File<'_>, n: usize, words: &mut [u32]) -> usize
    requires { (Holds file.bytes.now n) × (n ≤ length words.old) }
    ensures { (result ≡ tally (flagged eight) (file_words file.entry.bytes.now)) × (words.new ≡ file_words file.entry.bytes.now ++ drop n words.old) }
{
    let mut lines = 0;
    // By block, then by word: with a division for each word's place, reading takes half as long again.
    for b in 0..blocks_for(n) {
        let block = &file.bytes[BLOCK * (1 + b)..];
        for j in 0..block_words(b, n) {
            let u = num4_at(block, 4 * j);
            words[WORDS * b + j] = u;
            lines += usize::from(flagged(u));
        }
    }
    lines
}

// The levels, with zeros after the last.
pub fn levels_of(file: File<'_>) -> [u8; 255]
    ensures { result ≡ file_levels file.entry.bytes.now ++ replicate (255 - file_count file.entry.bytes.now) 0 }
{
    let n = level_count(file);
    let mut ks = [0u8; 255];
    ks[0..n].copy_from_slice(&file.bytes[16..16 + n]);
    ks
}

// What the file says beside its n words with so many flags.
pub fn stored_of(file: File<'_>, n: usize, lines: usize) -> Stored
    ensures { result ≡ stored file.entry.bytes.now n lines }
{
    Stored {
        answer: Answer::done(n, lines),
        width: num2_at(file.bytes, 4),
        height: num2_at(file.bytes, 6),
        border: u32::from(file.bytes[8]),
        count: level_count(file) as u32,
        levels: levels_of(file),
    }
}

// Refusal 8, of a file that keeps the layout and counts n words.
fn words_verdict(file: File<'_>, n: usize) -> Result<(), Refusal>
    requires { (laid_out file.bytes.now ≡ true) × (n ≡ file_word_count file.bytes.now) }
    ensures { verdict_of result ≡ verdict (words_fit_row eight (file_width file.entry.bytes.now) (file_height file.entry.bytes.now) (file_levels file.entry.bytes.now) (file_words file.entry.bytes.now) ∷ []) }
{
    let size = Size {
        width: num2_at(file.bytes, 4) as usize,
        height: num2_at(file.bytes, 6) as usize,
    };
    let k = first_bad(file, size, n);
    row_verdict(Reason::UnfitWord, k < n, k)
}

// The first refusal of 12 13 14 8 6 that applies; the file where none does.
pub fn read_verdict<'a>(bytes: &'a [u8], words: &[u32]) -> Result<File<'a>, Refusal>
    ensures { (verdict_of result ≡ read_verdict bytes.now words.now) × IfOk result (λ f. f.bytes.now ≡ bytes.now) }
{
    let cut = bytes.len() == 0 || bytes.len() % 512 != 0;
    row_verdict(Reason::FileLength, cut, 0)?;
    let file = File { bytes };
    let b = first_bad_block(bytes);
    row_verdict(Reason::BlockCheck, b < bytes.len() / 512, b)?;
    row_verdict(Reason::FileLayout, !laid_out(file), 0)?;
    let n = word_count(file);
    words_verdict(file, n)?;
    row_verdict(Reason::WordPlaces, words.len() < n, n)?;
    Ok(file)
}
