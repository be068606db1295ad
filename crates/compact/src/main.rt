// Reads one image from standard input, and writes the answer to standard output. The decisions are all the library's.
#![tactic(auto)]

use std::io;

// The largest image has 34,600 bytes and the buffer 65,536, so that a longer input is seen to be longer. The mark bitmap is all
// zero at first.
fn main(rt: HostRuntime) -> io::Result<()> {
    let mut input = [0u8; 65536];
    let mut marks = [0u64; 128];
    let n = input::read_full(&mut rt.reader(), &mut input);
    report::write_answer(&input[..n], &mut marks, &mut io::writer(&rt))
}
