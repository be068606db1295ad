// Reading bytes from a reader into a lent buffer.
#![tactic(auto)]

ghost use Rattle.std.specs.Io.KnownBytes.{Consumes};
ghost use Rattle.std.specs.Prelude.{◌≤◌, length, take};

use std::io::Read;

// Reads until the buffer is full, the input ends or a read fails, and answers how many bytes stand at its start.
pub fn read_full<R: Read>(reader: &mut R, buffer: &mut [u8]) -> usize
    ensures within { result ≤ length buffer.new }
    ensures bytes { Consumes (R.remaining reader.old) (R.remaining reader.new) (take result buffer.new) }
{
    // A loop of our own: `read_exact` gives no count where the input ends early, and `read_to_end` allocates.
    let mut done = 0;
    while done < buffer.len() {
        match reader.read(&mut buffer[done..]) {
            Ok(0) | Err(_) => break,
            Ok(n) => done += n,
        }
    }
    done
}
