// Runs the cases of the files in data/, which were worked out elsewhere, and writes lines for each, behind one with the
// name of the file.
#![tactic(auto)]

mod calls;
mod chunks;
mod images;
mod listings;
mod texts;

use std::fs::File;
use std::io;
use std::io::{Read, Write};
use std::rt::Files;

const TEXTS: u8 = 0;

const CHUNKS: u8 = 1;

const IMAGES: u8 = 2;

const LISTINGS: u8 = 3;

const CALLS: u8 = 4;

// No file has more.
const MOST: u32 = 100000;

// False at the end of the file.
fn run_case<R: Read, W: Write>(kind: u8, file: &mut R, to: &mut W) -> io::Result<bool> {
    match kind {
        TEXTS => texts::run_case(file, to),
        CHUNKS => chunks::run_case(file, to),
        IMAGES => images::run_case(file, to),
        LISTINGS => listings::run_case(file, to),
        _ => calls::run_case(file, to),
    }
}

fn run_cases<R: Read, W: Write>(kind: u8, file: &mut R, to: &mut W) -> io::Result<()> {
    let mut i = 0u32;
    while i < MOST && run_case(kind, file, to)? {
        i += 1;
    }
    Ok(())
}

// A file that cannot be opened has no cases.
fn run_file<R: Files, W: Write>(rt: &R, to: &mut W, name: &str, kind: u8) -> io::Result<()> {
    to.write_all(b"= ")?;
    to.write_all(name.as_bytes())?;
    to.write_all(b"\n")?;
    match File::open(rt, name) {
        Ok(mut file) => run_cases(kind, &mut file, to),
        Err(_) => Ok(()),
    }
}

fn main(rt: HostRuntime) -> io::Result<()> {
    let mut to = io::writer(&rt);
    run_file(&rt, &mut to, "texts", TEXTS)?;
    run_file(&rt, &mut to, "chunks", CHUNKS)?;
    run_file(&rt, &mut to, "images", IMAGES)?;
    run_file(&rt, &mut to, "listings", LISTINGS)?;
    run_file(&rt, &mut to, "calls", CALLS)
}
