// Reads each text of data/texts into a buffer and writes a line for it: the image in hex, or the number and place of
// the refusal. A text that is accepted is read again into a buffer that fits it exactly and into one that is one byte
// too short. A byte of the buffer that changed and should not have adds "changed".
ghost use Rattle.std.specs.Prelude.{◌≡◌, length};

use std::io;
use std::io::{Read, Write};
use vectors::{image_buffer, next_case, write_image};

// The line of one reading, and how long the image is; 0 where there is none.
fn run_reading<W: Write>(to: &mut W, text: &[u8], out: &mut [u8]) -> io::Result<usize> {
    let w = reader::read(text, out);
    write_image(to, w, out)?;
    match w {
        Ok(n) => Ok(n),
        Err(_) => Ok(0),
    }
}

// One byte more than a text may have.
fn long_buffer() -> [u8; 65537]
    ensures { 65537 ≡ length result }
{
    [0; 65537]
}

// Into the first n bytes of a buffer.
fn run_room<W: Write>(to: &mut W, text: &[u8], n: usize) -> io::Result<()> {
    if n <= 16384 {
        let mut out = image_buffer();
        run_reading(to, text, &mut out[..n])?;
    }
    Ok(())
}

fn run_text<W: Write>(to: &mut W, text: &[u8]) -> io::Result<()> {
    let mut out = image_buffer();
    let n = run_reading(to, text, &mut out)?;
    if 0 < n {
        run_room(to, text, n)?;
        run_room(to, text, n - 1)?;
    }
    Ok(())
}

// False at the end of the file.
pub fn run_case<R: Read, W: Write>(file: &mut R, to: &mut W) -> io::Result<bool> {
    let mut text = long_buffer();
    match next_case(file, &mut text) {
        None => Ok(false),
        Some(n) => {
            run_text(to, &text[..n])?;
            Ok(true)
        }
    }
}
