// Makes the calls of data/chunks, on a new state for each text, and writes a line for each: of a chunk the verdict, of
// the end the image in hex or the refusal. A byte of the image buffer that changed and should not have adds "changed".
ghost use Rattle.std.specs.Prelude.{◌≡◌, length};

use std::io;
use std::io::{Read, Write};
use vectors::{FILL, case_buffer, image_buffer, next_case, write_image, write_verdict};
use words::word;

// More bytes than any text here has.
fn text_buffer() -> [u8; 80000]
    ensures { 80000 ≡ length result }
{
    [0; 80000]
}

// A store before a text begins in it.
fn new_store() -> [u8; bounds::TEXT]
    ensures { 65536 ≡ length result }
{
    [FILL; bounds::TEXT]
}

// The bytes of the text from at on that come next, n of them; where the next ones begin then.
fn run_chunk<W: Write>(
    to: &mut W,
    text: &[u8],
    at: usize,
    n: usize,
    store: &mut [u8],
    count: &mut usize,
) -> io::Result<usize> {
    if text.len() < at {
        return Ok(at);
    }
    if text.len() - at < n {
        return Ok(at);
    }
    let e = at + n;
    let v = chunk_store::append(&text[at..e], store, count);
    write_verdict(to, v)?;
    to.write_all(b"\n")?;
    Ok(e)
}

// The end, with a buffer of this room.
fn run_end<W: Write>(to: &mut W, store: &[u8], count: &mut usize, room: usize) -> io::Result<()> {
    if room <= 16384 {
        let mut image = image_buffer();
        let out = &mut image[..room];
        let w = chunked_text::finish(store, count, out);
        write_image(to, w, out)?;
    }
    Ok(())
}

// A call, in two words: 1 and the length of a chunk, or 0 and the room for the image.
fn run_call<W: Write>(
    to: &mut W,
    text: &[u8],
    at: usize,
    call: &[u8],
    store: &mut [u8],
    count: &mut usize,
) -> io::Result<usize> {
    let n = word(call, 1);
    if word(call, 0) == 1 {
        return run_chunk(to, text, at, n, store, count);
    }
    run_end(to, store, count, n)?;
    Ok(at)
}

fn run_calls<W: Write>(to: &mut W, text: &[u8], calls: &[u8]) -> io::Result<()> {
    let mut store = new_store();
    let mut count = 0usize;
    let mut at = 0usize;
    let mut i = 0usize;
    while 8 <= calls.len() - i {
        let e = i + 8;
        at = run_call(to, text, at, &calls[i..e], &mut store, &mut count)?;
        i = e;
    }
    Ok(())
}

// The calls on a text, which follow it.
fn run_on<R: Read, W: Write>(file: &mut R, to: &mut W, text: &[u8]) -> io::Result<bool> {
    let mut calls = case_buffer();
    match next_case(file, &mut calls) {
        None => Ok(false),
        Some(m) => {
            run_calls(to, text, &calls[..m])?;
            Ok(true)
        }
    }
}

// A text and the calls on it. False at the end of the file.
pub fn run_case<R: Read, W: Write>(file: &mut R, to: &mut W) -> io::Result<bool> {
    let mut text = text_buffer();
    match next_case(file, &mut text) {
        None => Ok(false),
        Some(n) => run_on(file, to, &text[..n]),
    }
}
