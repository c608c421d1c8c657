// The values to check of document 01: each is evaluated through the public functions and printed on a line with its
// name. The texts are in data/. A term t there has the points (0, 0), (1000, 1), but in `points`, so that a reading has
// as many millionths for its degree as it has thousandths; where one rule has one conclusion, the sum of heights is the
// rule's degree.
#![tactic(auto)]

ghost use Rattle.std.specs.Prelude.{◌≡◌, ◌≤◌, ◌<◌, length};
ghost use Rattle.std.specs.Counts.{IsPrefixLen};

use model::{Answer, Crisp, Evaluation, Held, Mark, Reading, Refusal};
use std::fs::File;
use std::io;
use std::io::Write;
use std::rt::Files;
use vectors::{read_full, write_mark, write_signed};

const TWO_TO_52: u64 = 4503599627370496;

// A buffer that holds each text here, and each image.
fn buffer() -> [u8; 4096]
    ensures { 4096 ≡ length result }
{
    [0; 4096]
}

// How many bytes of the file were read to the start of text; none where there is no such file.
fn text_of<R: Files>(rt: &R, file: &str, text: &mut [u8]) -> usize
    ensures { IsPrefixLen result text.new }
{
    match File::open(rt, file) {
        Ok(mut opened) => read_full(&mut opened, text),
        Err(_) => 0,
    }
}

// How many bytes the image of the text has, at the start of out; none where the text is refused.
fn image_of(text: &[u8], out: &mut [u8]) -> usize
    ensures { IsPrefixLen result out.new }
{
    match reader::read(text, out) {
        Ok(n) => {
            if out.len() < n {
                return 0;
            }
            n
        }
        Err(_) => 0,
    }
}

// One call on the fresh record.
fn call(img: &[u8], readings: [Reading; bounds::INPUTS], n: usize) -> Evaluation {
    evaluation::evaluate(img, readings, n, evaluation::fresh_of(img).held)
}

fn call_on_text(text: &[u8], readings: [Reading; bounds::INPUTS], n: usize) -> Evaluation {
    let mut out = buffer();
    let k = image_of(text, &mut out);
    call(&out[..k], readings, n)
}

// The answer of the first output, where the block of a file gets n readings.
fn answer_of<R: Files>(
    rt: &R,
    file: &str,
    readings: [Reading; bounds::INPUTS],
    n: usize,
) -> Answer {
    let mut text = buffer();
    let k = text_of(rt, file, &mut text);
    let e = call_on_text(&text[..k], readings, n);
    let answers = e.answers;
    answers[0]
}

fn reals(a: f32, b: f32, c: f32) -> [Reading; bounds::INPUTS] {
    [
        Reading::Real(a),
        Reading::Real(b),
        Reading::Real(c),
        Reading::Absent,
        Reading::Absent,
        Reading::Absent,
        Reading::Absent,
        Reading::Absent,
    ]
}

// All digits of rest / unit behind the point, where unit divides 10^52.
fn write_fraction<W: Write>(to: &mut W, rest: u64, unit: u64) -> io::Result<()>
    requires { (rest < unit) × (unit ≤ 4503599627370496) }
{
    let mut left = rest;
    let mut i = 0u32;
    while i < 52 {
        let digit = left * 10 / unit;
        write!(to, "{digit}")?;
        left = left * 10 % unit;
        if left == 0 {
            return Ok(());
        }
        i += 1;
    }
    Ok(())
}

// What the 53 places of a float, read as a whole number, are divided by: 2^52 where it is below 2, and half as much for
// each power of two more.
fn unit_of(exponent: u64) -> u64
    ensures { (1 ≤ result) × (result ≤ 4503599627370496) }
{
    let mut unit = TWO_TO_52;
    let mut e = 1023u64;
    while e < exponent {
        if unit < 2 {
            return unit;
        }
        unit = unit / 2;
        e += 1;
    }
    unit
}

// The exact value of a float from 1 to below 2^52, all its digits; any other by its bits.
fn write_float<W: Write>(to: &mut W, x: f64) -> io::Result<()> {
    if x != x {
        return to.write_all(b"NaN");
    }
    let bits = f64::to_bits(x);
    let exponent = bits / TWO_TO_52;
    if exponent < 1023 || 1074 < exponent {
        return write!(to, "{bits:016x}");
    }
    let places = bits % TWO_TO_52 + TWO_TO_52;
    let unit = unit_of(exponent);
    let whole = places / unit;
    write!(to, "{whole}.")?;
    write_fraction(to, places % unit, unit)
}

// The sum of heights; a refused call has none.
fn write_sum<W: Write>(to: &mut W, a: Answer) -> io::Result<()> {
    let m = a.mark;
    let s = a.sum;
    match m {
        Mark::None => to.write_all(b"no answer"),
        _ => write!(to, "{s}"),
    }
}

fn sharp_line<R: Files, W: Write>(rt: &R, to: &mut W) -> io::Result<()> {
    let readings = reals(30.0, 0.0, 0.0);
    to.write_all(b"sharp 30: degree ")?;
    write_sum(to, answer_of(rt, "trust_rule_1", readings, 1))?;
    to.write_all(b", grade ")?;
    let a = answer_of(rt, "trust", readings, 1);
    let m = a.mark;
    write_mark(to, m)?;
    to.write_all(b" ")?;
    let t = a.thousandths;
    write_signed(to, t)?;
    to.write_all(b", S ")?;
    write_sum(to, a)?;
    to.write_all(b", float ")?;
    let x = a.value;
    write_float(to, x)?;
    to.write_all(b"\n")
}

// A degree, in millionths.
fn degree_line<R: Files, W: Write>(
    rt: &R,
    to: &mut W,
    name: &[u8],
    file: &str,
    readings: [Reading; bounds::INPUTS],
    n: usize,
) -> io::Result<()> {
    to.write_all(name)?;
    write_sum(to, answer_of(rt, file, readings, n))?;
    to.write_all(b"\n")
}

// A degree as a part of 1.
fn part_line<R: Files, W: Write>(
    rt: &R,
    to: &mut W,
    name: &[u8],
    file: &str,
    readings: [Reading; bounds::INPUTS],
    n: usize,
) -> io::Result<()> {
    to.write_all(name)?;
    let a = answer_of(rt, file, readings, n);
    let s = a.sum as u64;
    let whole = s / 1000000;
    write!(to, "{whole}.")?;
    write_fraction(to, s % 1000000, 1000000)?;
    to.write_all(b"\n")
}

// A figure, in thousandths.
fn figure_line<R: Files, W: Write>(
    rt: &R,
    to: &mut W,
    name: &[u8],
    file: &str,
    readings: [Reading; bounds::INPUTS],
    n: usize,
) -> io::Result<()> {
    to.write_all(name)?;
    let a = answer_of(rt, file, readings, n);
    let t = a.thousandths;
    write_signed(to, t)?;
    to.write_all(b"\n")
}

// A REAL as a crisp value, in thousandths.
fn real_line<W: Write>(to: &mut W, name: &[u8], x: f32) -> io::Result<()> {
    to.write_all(name)?;
    match readings::real(x) {
        Ok(c) => write_signed(to, c)?,
        Err(_) => to.write_all(b"no value")?,
    }
    to.write_all(b"\n")
}

fn write_refused<W: Write>(to: &mut W, number: u64, place: usize) -> io::Result<()> {
    write!(to, "refused {number} at {place}")
}

fn write_refusal<W: Write>(to: &mut W, r: Refusal) -> io::Result<()> {
    match r {
        Refusal::WrongToken(p) => write_refused(to, 2, p),
        Refusal::WrongName(p) => write_refused(to, 4, p),
        _ => to.write_all(b"refused by another number"),
    }
}

fn write_reading<W: Write>(to: &mut W, text: &[u8]) -> io::Result<()> {
    let mut out = buffer();
    match reader::read(text, &mut out) {
        Ok(_) => to.write_all(b"accepted"),
        Err(r) => write_refusal(to, r),
    }
}

// Whether the text of a file is read.
fn text_line<R: Files, W: Write>(rt: &R, to: &mut W, name: &[u8], file: &str) -> io::Result<()> {
    to.write_all(name)?;
    let mut text = buffer();
    let k = text_of(rt, file, &mut text);
    write_reading(to, &text[..k])?;
    to.write_all(b"\n")
}

fn degree_lines<R: Files, W: Write>(rt: &R, to: &mut W) -> io::Result<()> {
    degree_line(
        rt,
        to,
        b"points (0,0),(3,1) at 1: ",
        "points",
        reals(1.0, 0.0, 0.0),
        1,
    )?;
    degree_line(
        rt,
        to,
        b"points (0,0),(3,1) at 2: ",
        "points",
        reals(2.0, 0.0, 0.0),
        1,
    )?;
    degree_line(
        rt,
        to,
        b"PROD(500, 1000): ",
        "prod",
        reals(0.5, 1.0, 0.0),
        2,
    )?;
    degree_line(
        rt,
        to,
        b"PROD(499, 1000): ",
        "prod",
        reals(0.499, 1.0, 0.0),
        2,
    )?;
    degree_line(
        rt,
        to,
        b"ASUM(500000, 500000): ",
        "asum",
        reals(500.0, 500.0, 0.0),
        2,
    )?;
    degree_line(
        rt,
        to,
        b"BDIF(600000, 500000): ",
        "bdif",
        reals(600.0, 500.0, 0.0),
        2,
    )?;
    Ok(())
}

fn main(rt: HostRuntime) -> io::Result<()> {
    let mut to = io::writer(&rt);
    sharp_line(&rt, &mut to)?;
    degree_lines(&rt, &mut to)?;
    real_line(&mut to, b"REAL 0.0625: ", 0.0625)?;
    real_line(&mut to, b"REAL -0.0625: ", -0.0625)?;
    let full = reals(1000.0, 0.0, 0.0);
    figure_line(
        &rt,
        &mut to,
        b"equal heights at -0.003 and 0: ",
        "two_figures",
        full,
        1,
    )?;
    figure_line(
        &rt,
        &mut to,
        b"equal heights at -0.003, -0.002 and 0: ",
        "three_figures",
        full,
        1,
    )?;
    degree_line(
        &rt,
        &mut to,
        b"degree 250000 WITH 0.5: ",
        "weight",
        reals(250.0, 0.0, 0.0),
        1,
    )?;
    let three = reals(200.0, 900.0, 100.0);
    part_line(
        &rt,
        &mut to,
        b"a OR b AND c at 0.2, 0.9, 0.1 under MIN/MAX: ",
        "or_and",
        three,
        3,
    )?;
    text_line(&rt, &mut to, b"the empty text: ", "empty")?;
    real_line(&mut to, b"REAL 3e38: ", 3.0e38)?;
    text_line(&rt, &mut to, b"a 16-byte name: ", "name_16")?;
    text_line(&rt, &mut to, b"a 17-byte name: ", "name_17")?;
    Ok(())
}
