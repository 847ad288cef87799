// Reads an input into a lent buffer.
#![tactic(auto)]

ghost use Rattle.std.specs.Prelude.{ℕ, ◌<◌, ◌≤◌, IfOk, OnErr, length, take};
ghost use Rattle.std.specs.Io.{ReadsAtMost};
ghost use Rattle.std.specs.Io.KnownBytes.{Consumes, IsAtEnd};

use std::io;
use std::io::Read;

// Reads until the buffer is full or the input ends, and gives how many bytes stand at the front of the buffer. Where a read
// fails, what was read before stands there, and no byte is lost.
pub fn read_full<R: Read>(input: &mut R, buf: &mut [u8]) -> io::Result<usize>
    ensures bound { ReadsAtMost result buf.new }
    ensures bytes { IfOk result (λ n. Consumes (R.remaining input.old) (R.remaining input.new) (take n buf.new)) }
    ensures end { IfOk result (λ n. n < length buf.new → IsAtEnd (R.remaining input.new)) }
    ensures err { OnErr result ((n : ℕ) × (n ≤ length buf.new) × Consumes (R.remaining input.old) (R.remaining input.new) (take n buf.new)) }
{
    let mut len = 0;
    // No `for` fits: how far a turn goes is for the reader to say.
    while len < buf.len() {
        let count = input.read(&mut buf[len..])?;
        if count == 0 {
            return Ok(len);
        }
        len += count;
    }
    Ok(len)
}
