// The listing program: reads a text from standard input and prints its listing, or `refused N at P`. It reads one byte
// more than a text may have, so that a longer text is refused too. What it prints is `listing_report::print`.
#![tactic(auto)]

ghost use Rattle.std.specs.Prelude.{◌≡◌, length};
ghost use Rattle.std.specs.Counts.{IsPrefixLen};
ghost use Rattle.model.specs.Bounds.{listing_limit};

use std::io;
use std::io::{Read, Write};

// What was read: how many bytes, and whether the input ended or the buffer was full, and no read failed.
#[derive(Clone, Copy)]
struct Input {
    ok: bool,
    len: usize,
}

// The program takes texts of at most so many bytes.
const TEXT: usize = 65_536;

fn text_buffer() -> [u8; TEXT + 1]
    ensures { 65537 ≡ length result }
{
    [0; TEXT + 1]
}

fn listing_buffer() -> [u8; bounds::LISTING]
    ensures { listing_limit ≡ length result }
{
    [0; bounds::LISTING]
}

fn read_input<R: Read>(stdin: &mut R, buf: &mut [u8]) -> Input
    ensures { IsPrefixLen result.len buf.new }
{
    let mut n = 0;
    while n < buf.len() {
        match stdin.read(&mut buf[n..]) {
            Ok(m) => {
                if m == 0 {
                    return Input { ok: true, len: n };
                }
                n += m;
            }
            Err(_) => return Input { ok: false, len: n },
        }
    }
    Input { ok: true, len: n }
}

fn main(rt: HostRuntime) -> io::Result<()> {
    let mut text = text_buffer();
    let input = read_input(&mut rt.stdin(), &mut text);
    if !input.ok {
        return rt.eprintln("the input cannot be read");
    }
    let len = input.len;
    let mut out = listing_buffer();
    let n = listing_report::print(&text[..len], &mut out);
    if io::writer(&rt).write_all(&out[..n]).is_err() {
        return rt.eprintln("the listing cannot be written");
    }
    Ok(())
}
