// What the programs over vectors share: the cases of a file one by one, whether a buffer that was lent changed, and how
// refusals, images, figures and answers are written. The files, and the lines to expect, are made by tools/vectors.py
// from vectors worked out elsewhere.
#![tactic(auto)]

ghost use Rattle.std.specs.Prelude.{◌≡◌, ◌≤◌, IfSome, not, eqb, length, drop, replicate};
ghost use Rattle.std.specs.Counts.{IsPrefixLen};
ghost use Rattle.model.specs.Basic.{all};

use evaluation::Fresh;
use model::{Answer, Crisp, Evaluation, Held, Mark, Refusal};
use std::io;
use std::io::{Read, Write};

// What a buffer is filled with before it is lent.
pub const FILL: u8 = 165;

// Reads until buf is full, the file ends or a read fails, and says how many bytes it put at the start of buf.
pub fn read_full<R: Read>(file: &mut R, buf: &mut [u8]) -> usize
    ensures { IsPrefixLen result buf.new }
{
    let mut done = 0;
    while done < buf.len() {
        match file.read(&mut buf[done..]) {
            Ok(n) => {
                if n == 0 {
                    return done;
                }
                done += n;
            }
            Err(_) => return done,
        }
    }
    done
}

// How many bytes the next case of a file has, which is read to the start of buf: a word says it, then they follow. No
// case is left at the end of the file, and where buf has no room for it.
pub fn next_case<R: Read>(file: &mut R, buf: &mut [u8]) -> Option<usize>
    ensures { IfSome result (λ n. n ≤ length buf.new) }
{
    let mut head = [0u8; 4];
    if read_full(file, &mut head) != 4 {
        return None;
    }
    let n = words::word(&head, 0);
    if n > buf.len() {
        return None;
    }
    if read_full(file, &mut buf[..n]) != n {
        return None;
    }
    Some(n)
}

// Whether a byte from k on is another than the buffer was filled with.
fn is_changed(buf: &[u8], k: usize) -> bool
    ensures { result ≡ not (all (eqb 165) (drop k buf.now)) }
{
    let mut i = k;
    while i < buf.len() {
        if buf[i] != FILL {
            return true;
        }
        i += 1;
    }
    false
}

// Ends a line on a buffer that was lent: "changed" if a byte from k on did.
pub fn end_line<W: Write>(to: &mut W, buf: &[u8], k: usize) -> io::Result<()> {
    if is_changed(buf, k) {
        to.write_all(b" changed")?;
    }
    to.write_all(b"\n")
}

// The number of a refusal and its place.
pub fn write_refusal<W: Write>(to: &mut W, r: Refusal) -> io::Result<()> {
    let t = refusals::number_and_place(r);
    let number = t.number;
    write!(to, "{number}")?;
    match t.place {
        Some(place) => write!(to, " {place}"),
        None => to.write_all(b" -"),
    }
}

// 0 for accepted.
pub fn write_verdict<W: Write>(to: &mut W, v: Result<(), Refusal>) -> io::Result<()> {
    match v {
        Ok(()) => to.write_all(b"0 -"),
        Err(r) => write_refusal(to, r),
    }
}

// A buffer that holds every image.
pub fn image_buffer() -> [u8; 16384]
    ensures value { 16384 ≡ length result }
    ensures filled { result ≡ replicate 16384 165 }
{
    [FILL; 16384]
}

// A buffer that holds every listing.
pub fn listing_buffer() -> [u8; 40000]
    ensures value { 40000 ≡ length result }
    ensures filled { result ≡ replicate 40000 165 }
{
    [FILL; 40000]
}

// A buffer for a case of a file, of zeros.
pub fn case_buffer() -> [u8; 65536]
    ensures { 65536 ≡ length result }
{
    [0; 65536]
}

// The first n bytes in hex, if there are as many.
fn write_bytes<W: Write>(to: &mut W, out: &[u8], n: usize) -> io::Result<()> {
    let mut i = 0;
    while i < n {
        if out.len() <= i {
            return Ok(());
        }
        let b = out[i];
        write!(to, "{b:02x}")?;
        i += 1;
    }
    Ok(())
}

// The line of an image that was to be written to the front of a buffer: in hex, or the refusal.
pub fn write_image<W: Write>(to: &mut W, w: Result<usize, Refusal>, out: &[u8]) -> io::Result<()> {
    match w {
        Ok(n) => {
            write_bytes(to, out, n)?;
            end_line(to, out, n)
        }
        Err(r) => {
            write_refusal(to, r)?;
            end_line(to, out, 0)
        }
    }
}

// The line of what is to be refused and to leave the buffer as it came.
pub fn write_refused<W: Write>(
    to: &mut W,
    w: Result<usize, Refusal>,
    buf: &[u8],
) -> io::Result<()> {
    match w {
        Ok(_) => to.write_all(b"0 -")?,
        Err(r) => write_refusal(to, r)?,
    }
    end_line(to, buf, 0)
}

// Any 32-bit number in decimal: a held record that is refused may hold each of them.
pub fn write_signed<W: Write>(to: &mut W, x: Crisp) -> io::Result<()> {
    let n = x.0;
    write!(to, "{n}")
}

fn write_figure<W: Write>(to: &mut W, x: Crisp) -> io::Result<()> {
    to.write_all(b" ")?;
    write_signed(to, x)
}

fn write_held<W: Write>(to: &mut W, held: Held) -> io::Result<()> {
    let f = held.figures;
    write_figure(to, f[0])?;
    write_figure(to, f[1])?;
    write_figure(to, f[2])?;
    write_figure(to, f[3])?;
    write_figure(to, f[4])?;
    write_figure(to, f[5])?;
    to.write_all(b"\n")
}

pub fn write_mark<W: Write>(to: &mut W, m: Mark) -> io::Result<()> {
    match m {
        Mark::None => to.write_all(b"none"),
        Mark::Fired => to.write_all(b"fired"),
        Mark::Default => to.write_all(b"default"),
        Mark::Held => to.write_all(b"held"),
    }
}

// The bits of a float, in hex.
fn write_bits<W: Write>(to: &mut W, x: f64) -> io::Result<()> {
    if x != x {
        return to.write_all(b"NaN");
    }
    let bits = f64::to_bits(x);
    write!(to, "{bits:016x}")
}

fn write_answer<W: Write>(to: &mut W, a: Answer) -> io::Result<()> {
    to.write_all(b", ")?;
    let m = a.mark;
    write_mark(to, m)?;
    let t = a.thousandths;
    write_figure(to, t)?;
    let s = a.sum;
    write!(to, " {s} ")?;
    let x = a.value;
    write_bits(to, x)
}

// The line of a fresh record.
pub fn write_fresh<W: Write>(to: &mut W, fresh: Fresh) -> io::Result<()> {
    write_verdict(to, fresh.verdict)?;
    to.write_all(b",")?;
    write_held(to, fresh.held)
}

// The line of a call.
pub fn write_evaluation<W: Write>(to: &mut W, e: Evaluation) -> io::Result<()> {
    let v = e.verdict;
    write_verdict(to, v)?;
    let a = e.answers;
    write_answer(to, a[0])?;
    write_answer(to, a[1])?;
    write_answer(to, a[2])?;
    write_answer(to, a[3])?;
    write_answer(to, a[4])?;
    write_answer(to, a[5])?;
    to.write_all(b",")?;
    let h = e.held;
    write_held(to, h)
}
