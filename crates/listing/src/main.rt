// The listing program: reads levels and a picture, prints the lines.
#![tactic(auto)]

ghost use Rattle.std.specs.Prelude.{◌≡◌, ◌≤◌, length, IfOk};
ghost use Rattle.text.specs.Put.{Put};
ghost use Rattle.listing.specs.Printed.{Rooms, printed};

use form::{Form, read_form};
use std::io;
use std::io::{Read, Write};
use text::{put_listing, put_not_form, put_refused};
use tree::tree;

// Reads the input, lists its picture, and puts what is to be printed.
fn run(
    input: &[u8],
    work: &mut [u8],
    words: &mut [u32],
    places: &mut [u32],
    out: &mut [u8],
) -> usize
    requires { Rooms work.old words.old places.old out.old }
    ensures { Put out.old 0 (printed input.now) result out.new }
{
    let Some(form) = read_form(input) else {
        return put_not_form(out);
    };
    let Form {
        width,
        height,
        count,
        levels,
        at,
    } = form;
    let samples = &input[at..];
    let answer = tree(
        width,
        height,
        samples,
        &levels[..count],
        work,
        words,
        places,
    );
    // The call's answer is C's record, so a refusal is told by its number.
    if answer.number != 0 {
        return put_refused(out, answer.number);
    }
    let words = &words[..answer.words];
    let entries = &places[..answer.lines];
    put_listing(
        out,
        width,
        height,
        samples,
        count,
        words,
        answer.lines,
        entries,
    )
}

// Room for one byte more than the longest input of the form. Each room is a function, which says its length: written out in main, the check would count the array up.
fn input_room() -> [u8; 17420]
    ensures { 17420 ≡ length result }
{
    [0; 17420]
}

// Room for 16,384 work bytes.
fn work_room() -> [u8; 16384]
    ensures { 16384 ≡ length result }
{
    [0; 16384]
}

// Room for 16,384 words.
fn word_room() -> [u32; 16384]
    ensures { 16384 ≡ length result }
{
    [0; 16384]
}

// Room for 8,192 tree entries.
fn place_room() -> [u32; 8192]
    ensures { 8192 ≡ length result }
{
    [0; 8192]
}

// Room for the longest text.
fn text_room() -> [u8; 1048616]
    ensures { 1048616 ≡ length result }
{
    [0; 1048616]
}

// Reads until the room is full or the input ends, and says how many bytes came.
fn read_full<R: Read>(from: &mut R, room: &mut [u8]) -> io::Result<usize>
    ensures { IfOk result (λ n. n ≤ length room.old) }
{
    let mut n = 0;
    for _ in 0..room.len() {
        let k = from.read(&mut room[n..])?;
        if k == 0 {
            break;
        }
        n += k;
    }
    Ok(n)
}

fn main(rt: HostRuntime) -> io::Result<()> {
    let mut input = input_room();
    let mut work = work_room();
    let mut words = word_room();
    let mut places = place_room();
    let mut out = text_room();
    let n = read_full(&mut rt.reader(), &mut input)?;
    let m = run(&input[0..n], &mut work, &mut words, &mut places, &mut out);
    io::writer(&rt).write_all(&out[0..m])
}
