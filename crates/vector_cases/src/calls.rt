// Runs the calls of data/calls, each by value and for daily use, and writes a line for the fresh record of each image and
// two for each call.
ghost use Rattle.std.specs.Prelude.{◌≤◌};

use model::{Crisp, Held, Reading};
use std::io;
use std::io::{Read, Write};
use vectors::{case_buffer, next_case, write_evaluation, write_fresh};
use words::{crisp_at, word};

// The float of a pattern; a NaN's pattern gives a NaN.
fn float_of(n: u32) -> f32 {
    if n % 2147483648 > 2139095040 {
        let zero = 0.0f32;
        return zero / zero;
    }
    f32::from_bits(n)
}

// A figure that does not fit counts as 0.
fn int_of(x: Crisp) -> i16 {
    let n = x.0;
    if n < -32768 {
        return 0;
    }
    if n > 32767 {
        return 0;
    }
    n as i16
}

// The reading in the words i and i + 1: its kind, then its bits or its figure.
fn reading_at(call: &[u8], i: usize) -> Reading
    requires { i ≤ 100 }
{
    let kind = word(call, i);
    if kind == 1 {
        return Reading::Real(float_of(word(call, i + 1) as u32));
    }
    if kind == 2 {
        return Reading::Int(int_of(crisp_at(call, i + 1)));
    }
    Reading::Absent
}

fn readings_of(call: &[u8]) -> [Reading; 8] {
    [
        reading_at(call, 1),
        reading_at(call, 3),
        reading_at(call, 5),
        reading_at(call, 7),
        reading_at(call, 9),
        reading_at(call, 11),
        reading_at(call, 13),
        reading_at(call, 15),
    ]
}

fn held_of(call: &[u8]) -> Held {
    Held {
        figures: [
            crisp_at(call, 17),
            crisp_at(call, 18),
            crisp_at(call, 19),
            crisp_at(call, 20),
            crisp_at(call, 21),
            crisp_at(call, 22),
        ],
    }
}

// A call is 23 words: the count, eight readings, the held record.
fn run_words<W: Write>(to: &mut W, img: &[u8], call: &[u8]) -> io::Result<()> {
    let n = word(call, 0);
    let readings = readings_of(call);
    let held = held_of(call);
    write_evaluation(to, evaluation::evaluate(img, readings, n, held))?;
    write_evaluation(to, daily::evaluate_lending(img, readings, n, held))
}

// False behind the last call, which an empty case marks.
fn run_call<R: Read, W: Write>(file: &mut R, to: &mut W, img: &[u8]) -> io::Result<bool> {
    let mut call = [0u8; 92];
    match next_case(file, &mut call) {
        None => Ok(false),
        Some(n) => {
            if n != 92 {
                return Ok(false);
            }
            run_words(to, img, &call)?;
            Ok(true)
        }
    }
}

fn run_calls<R: Read, W: Write>(file: &mut R, to: &mut W, img: &[u8]) -> io::Result<()> {
    let mut i = 0u32;
    while i < 100000 && run_call(file, to, img)? {
        i += 1;
    }
    Ok(())
}

fn run_image<R: Read, W: Write>(file: &mut R, to: &mut W, img: &[u8]) -> io::Result<()> {
    write_fresh(to, evaluation::fresh_of(img))?;
    run_calls(file, to, img)
}

// An image and its calls. False at the end of the file.
pub fn run_case<R: Read, W: Write>(file: &mut R, to: &mut W) -> io::Result<bool> {
    let mut img = case_buffer();
    match next_case(file, &mut img) {
        None => Ok(false),
        Some(n) => {
            run_image(file, to, &img[..n])?;
            Ok(true)
        }
    }
}
