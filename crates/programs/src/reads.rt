// What a program reads, from standard input or from a file.
ghost use Rattle.std.specs.Prelude.{IfOk, ◌<◌, ◌≤◌, length, take};
ghost use Rattle.std.specs.Io.KnownBytes.{Consumes, IsAtEnd};

use std::io;
use std::io::Read;

// Reads until the bytes are full or the input ends, and answers how many bytes came.
// Where it is known what the input has left, these are its first bytes, as many as fit, in their order.
pub fn read_full<R: Read>(input: &mut R, bytes: &mut [u8]) -> io::Result<usize>
    ensures fits { IfOk result (λ n. n ≤ length bytes.new) }
    ensures came { IfOk result (λ n. Consumes (R.remaining input.old) (R.remaining input.new) (take n bytes.new)) }
    ensures whole { IfOk result (λ n. n < length bytes.new → IsAtEnd (R.remaining input.new)) }
{
    // a `while`, since each read says itself how much came
    let mut done = 0;
    while done < bytes.len() {
        let n = input.read(&mut bytes[done..])?;
        if n == 0 {
            break;
        }
        done += n;
    }
    Ok(done)
}
