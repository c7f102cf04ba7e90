// The parts of a file as it is written: the refusals, block 0, the blocks of words.
ghost use Rattle.std.specs.Prelude.{◌≡◌, [], ◌∷◌, ◌++◌, ◌+◌, ◌-◌, ◌*◌, ◌≤◌, ◌<◌, min, length, take, drop, IfOk};
ghost use Rattle.block.specs.Block.{le2, le4, pad, block};
ghost use Rattle.refuse.specs.Told.{verdict_of};
ghost use Rattle.olr.specs.File.{blocks_for, letters, header, word_bytes, word_blocks, write_verdict};

use crate::{LETTERS, WORDS};
use block::{BLOCK, close, close_two, put2, put4};
use refuse::{Reason, Refusal, Size, row_verdict, size_verdict};
use words::first_bad_word;

// How many blocks n words take.
pub fn blocks_for(n: usize) -> usize
    ensures { result ≡ blocks_for n }
{
    n.div_ceil(WORDS)
}

// The first refusal of 1 3 16 8 15 that applies; the size where none does.
pub fn write_verdict(
    w: usize,
    h: usize,
    levels: &[u8],
    words: &[u32],
    file: &[u8],
) -> Result<Size, Refusal>
    ensures { (verdict_of result ≡ write_verdict w h 0 levels.now words.now file.now) × IfOk result (λ s. (s.width ≡ w) × (s.height ≡ h)) }
{
    let size = size_verdict(w, h, levels)?;
    row_verdict(Reason::ManyWords, 16777215 < words.len(), 0)?;
    let bad = first_bad_word(size, levels, words);
    row_verdict(Reason::UnfitWord, bad < words.len(), bad)?;
    let needed = 512 * (1 + blocks_for(words.len()));
    row_verdict(Reason::FileRoom, file.len() < needed, needed)?;
    Ok(size)
}

// Letters and sides, 8 bytes.
pub fn put_sides(s: &mut [u8], size: Size)
    requires { 8 ≤ length s.old }
    ensures { s.new ≡ (letters ++ le2 size.width ++ le2 size.height) ++ drop 8 s.old }
{
    s[0..4].copy_from_slice(&LETTERS);
    put2(s, 4, size.width as u32);
    put2(s, 6, size.height as u32);
}

// Border value, number of levels, two zero bytes and word count, the next 8 bytes.
pub fn put_counts(s: &mut [u8], v: u8, count: u8, n: u32)
    requires { 16 ≤ length s.old }
    ensures { s.new ≡ take 8 s.old ++ ((v ∷ count ∷ 0 ∷ 0 ∷ []) ++ le4 n) ++ drop 16 s.old }
{
    s[8..12].copy_from_slice(&[v, count, 0, 0]);
    put4(s, 12, n);
}

// Copies all of `from` over `to`. A function of its own with a loop: here it is known that the two do not overlap, which copy_from_slice does not tell.
#[inline(never)]
fn copy(to: &mut [u8], from: &[u8])
    requires { length to.old ≡ length from.now }
    ensures len { length to.new ≡ length to.old }
    ensures after { to.new ≡ from.now }
{
    for i in 0..to.len() {
        to[i] = from[i];
    }
}

// Block 0.
// A block is a part of the lent file, cut by a range, so it is a slice whose length a clause says.
pub fn put_head(s: &mut [u8], size: Size, v: u8, levels: &[u8], n: usize)
    requires { (length s.old ≡ 512) × (length levels.now ≤ 255) × (n ≤ 16777215) }
    ensures { s.new ≡ block 0 (pad (header size.width size.height v levels.now n)) }
{
    let m = levels.len();
    put_sides(s, size);
    put_counts(s, v, m as u8, n as u32);
    copy(&mut s[16..16 + m], levels);
    close(s, 16 + m, 0);
}

// The bytes of words, at the start.
pub fn put_bytes(s: &mut [u8], words: &[u32])
    requires { (length s.old ≡ 512) × (length words.now ≤ 127) }
    ensures { s.new ≡ word_bytes words.now ++ drop (4 * length words.now) s.old }
{
    for (j, u) in words.iter().enumerate() {
        put4(s, 4 * j, *u);
    }
}

// A block of at most 127 words.
pub fn put_block(s: &mut [u8], number: usize, words: &[u32])
    requires { (length s.old ≡ 512) × (length words.now ≤ 127) }
    ensures { s.new ≡ block number (pad (word_bytes words.now)) }
{
    put_bytes(s, words);
    close(s, 4 * words.len(), number);
}

// Two full blocks, of the first 254 words.
pub fn put_two(s: &mut [u8], number: usize, words: &[u32])
    requires { (length s.old ≡ 1024) × (number < 4294967296) × (254 ≤ length words.now) }
    ensures { s.new ≡ word_blocks number 2 words.now }
{
    put_bytes(&mut s[0..BLOCK], &words[0..WORDS]);
    put_bytes(&mut s[BLOCK..2 * BLOCK], &words[WORDS..2 * WORDS]);
    close_two(s, number);
}

// How many words block 1 + b holds, of n in all.
pub fn block_words(b: usize, n: usize) -> usize
    requires { 127 * b ≤ n }
    ensures { result ≡ min 127 (n - 127 * b) }
{
    WORDS.min(n - WORDS * b)
}

// The blocks of words, from block 1 on: two at once as long as both are full.
pub fn put_words(file: &mut [u8], words: &[u32])
    requires { (length words.now ≤ 16777215) × (512 * (1 + blocks_for (length words.now)) ≤ length file.old) }
    ensures { file.new ≡ (take 512 file.old ++ word_blocks 1 (blocks_for (length words.now)) words.now)
        ++ drop (512 * (1 + blocks_for (length words.now))) file.old }
{
    let pairs = words.len() / (2 * WORDS);
    for k in 0..pairs {
        let i = 2 * k;
        let at = BLOCK * (1 + i);
        put_two(&mut file[at..at + 2 * BLOCK], 1 + i, &words[WORDS * i..]);
    }
    for i in 2 * pairs..blocks_for(words.len()) {
        let at = BLOCK * (1 + i);
        let part = &words[WORDS * i..WORDS * i + block_words(i, words.len())];
        put_block(&mut file[at..at + BLOCK], 1 + i, part);
    }
}
