// Runs the load check on each image of data/images and writes a line for each: the number of the refusal, or 0. Of an
// image that is refused, lines for its fresh record, for a call on it and for its listing follow.
use model::{Crisp, Held, Reading};
use std::io;
use std::io::{Read, Write};
use vectors::{
    case_buffer, listing_buffer, next_case, write_evaluation, write_fresh, write_refused,
    write_verdict,
};

// A record that no refusal may change.
fn lent_record() -> Held {
    Held {
        figures: [
            Crisp(1),
            Crisp(-2),
            Crisp(30),
            Crisp(-400),
            Crisp(5000),
            Crisp(-60000),
        ],
    }
}

fn run_refused<W: Write>(to: &mut W, img: &[u8]) -> io::Result<()> {
    write_fresh(to, evaluation::fresh_of(img))?;
    let none = Reading::Absent;
    let readings = [none, none, none, none, none, none, none, none];
    let held = lent_record();
    write_evaluation(to, evaluation::evaluate(img, readings, 9, held))?;
    let mut out = listing_buffer();
    let w = lister::list(img, &mut out);
    write_refused(to, w, &out)
}

fn run_image<W: Write>(to: &mut W, img: &[u8]) -> io::Result<()> {
    let v = load::check(img);
    write_verdict(to, v)?;
    to.write_all(b"\n")?;
    match v {
        Ok(()) => Ok(()),
        Err(_) => run_refused(to, img),
    }
}

// False at the end of the file.
pub fn run_case<R: Read, W: Write>(file: &mut R, to: &mut W) -> io::Result<bool> {
    let mut img = case_buffer();
    match next_case(file, &mut img) {
        None => Ok(false),
        Some(n) => {
            run_image(to, &img[..n])?;
            Ok(true)
        }
    }
}
