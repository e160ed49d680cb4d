// A stream read into a lent buffer, until the buffer is full or the stream ends.
#![tactic(auto)]

ghost use Rattle.std.specs.Prelude.{◌<◌, ◌≤◌, IfOk, length, take};
ghost use Rattle.std.specs.Io.KnownBytes.{Consumes, IsAtEnd};

use std::io;
use std::io::Read;

// Reads until the buffer is full or the stream ends, and tells how many bytes stand at the buffer's front. At an error bytes may have been read.
// A `while`, since a read may give any part of what there is room for.
pub fn read_full<R: Read>(stream: &mut R, buf: &mut [u8]) -> io::Result<usize>
    ensures within { IfOk result (λ n. n ≤ length buf.new) }
    ensures bytes { IfOk result (λ n. Consumes (R.remaining stream.old) (R.remaining stream.new) (take n buf.new)) }
    ensures whole { IfOk result (λ n. n < length buf.new → IsAtEnd (R.remaining stream.new)) }
{
    let mut done = 0;
    while done < buf.len() {
        let n = stream.read(&mut buf[done..])?;
        if n == 0 {
            return Ok(done);
        }
        done += n;
    }
    Ok(done)
}
