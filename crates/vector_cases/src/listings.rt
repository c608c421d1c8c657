// Reads each text of data/listings to its image and writes the listing of that, then two lines: whether the listing
// read again gives the image byte for byte, and what one byte less room gives, which is a refusal. A byte of the buffer
// that changed and should not have adds "changed".
use std::io;
use std::io::{Read, Write};
use vectors::{
    case_buffer, end_line, image_buffer, listing_buffer, next_case, write_refusal, write_refused,
};

// Whether the text reads to the image.
fn reads_to(text: &[u8], img: &[u8]) -> bool {
    let mut again = image_buffer();
    match reader::read(text, &mut again) {
        Ok(n) => n <= 16384 && &again[..n] == img,
        Err(_) => false,
    }
}

// The listing, and whether it reads to the image.
fn write_listing<W: Write>(to: &mut W, img: &[u8], listing: &[u8]) -> io::Result<()> {
    to.write_all(listing)?;
    if reads_to(listing, img) {
        to.write_all(b"again")
    } else {
        to.write_all(b"differs")
    }
}

// Into a buffer that is too short.
fn run_short<W: Write>(to: &mut W, img: &[u8], out: &mut [u8]) -> io::Result<()> {
    let w = lister::list(img, out);
    write_refused(to, w, out)
}

// Into the first n bytes of a buffer.
fn run_room<W: Write>(to: &mut W, img: &[u8], n: usize) -> io::Result<()> {
    if n <= 40000 {
        let mut out = listing_buffer();
        run_short(to, img, &mut out[..n])?;
    }
    Ok(())
}

fn run_image<W: Write>(to: &mut W, img: &[u8]) -> io::Result<()> {
    let mut out = listing_buffer();
    match lister::list(img, &mut out) {
        Ok(n) => {
            if n <= 40000 {
                write_listing(to, img, &out[..n])?;
                end_line(to, &out, n)?;
            }
            if 0 < n {
                run_room(to, img, n - 1)?;
            }
            Ok(())
        }
        Err(r) => {
            write_refusal(to, r)?;
            end_line(to, &out, 0)
        }
    }
}

fn run_text<W: Write>(to: &mut W, text: &[u8]) -> io::Result<()> {
    let mut img = image_buffer();
    match reader::read(text, &mut img) {
        Ok(n) => {
            if n <= 16384 {
                run_image(to, &img[..n])?;
            }
            Ok(())
        }
        Err(r) => {
            write_refusal(to, r)?;
            to.write_all(b"\n")
        }
    }
}

// False at the end of the file.
pub fn run_case<R: Read, W: Write>(file: &mut R, to: &mut W) -> io::Result<bool> {
    let mut text = case_buffer();
    match next_case(file, &mut text) {
        None => Ok(false),
        Some(n) => {
            run_text(to, &text[..n])?;
            Ok(true)
        }
    }
}
