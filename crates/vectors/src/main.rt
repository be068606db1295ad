// Runs cases from standard input until it ends, and writes a line for each. A case is its length in bytes and then
// little-endian words: a kind, the lengths, the data. The answers are all the library's.
#![tactic(auto)]

use input::read_full;
use std::io;
use std::io::{Read, Write};

mod calls;
mod case;
mod digest;
mod run;

// Runs the case of so many bytes, or what the input still has of it; false where it is longer than any may be. By itself, so that
// the buffer is made once for a case.
fn run_case<R: Read, W: Write>(input: &mut R, out: &mut W, bytes: usize) -> io::Result<bool> {
    let mut space = [0u8; 65536];
    let Some(buffer) = space.get_mut(..bytes) else {
        run::skipped(out)?;
        return Ok(false);
    };
    let n = read_full(input, buffer);
    run::run(out, &buffer[..n])?;
    Ok(true)
}

// Runs the next case; false where there is none.
fn next<R: Read, W: Write>(input: &mut R, out: &mut W) -> io::Result<bool> {
    let mut length = [0u8; 4];
    if read_full(input, &mut length) < 4 {
        return Ok(false);
    }
    run_case(input, out, u32::from_le_bytes(length) as usize)
}

// Nothing says that the input ends, so the cases are counted too.
fn run_all<R: Read, W: Write>(input: &mut R, out: &mut W) -> io::Result<()> {
    for _ in 0..4294967295u64 {
        if !next(input, out)? {
            break;
        }
    }
    Ok(())
}

fn main(rt: HostRuntime) -> io::Result<()> {
    run_all(&mut rt.reader(), &mut io::writer(&rt))
}
