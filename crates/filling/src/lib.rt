// A buffer is filled from a reader, as far as the input goes.
#![tactic(auto)]

ghost use Rattle.std.specs.Prelude.{◌≡◌, ◌≤◌, ◌<◌, true, false, Ok, IfOk, length, take};
ghost use Rattle.std.specs.Io.KnownBytes.{Consumes, IsAtEnd};

use std::io;
use std::io::Read;

// Reads until the buffer is full or the input ends, and says how many bytes it put at the buffer's start. After an error some may be gone.
pub fn read_full<R: Read>(input: &mut R, buffer: &mut [u8]) -> io::Result<usize>
    ensures bound { IfOk result (λ n. n ≤ length buffer.new) }
    ensures bytes { IfOk result (λ n. Consumes (R.remaining input.old) (R.remaining input.new) (take n buffer.new)) }
    ensures end { IfOk result (λ n. n < length buffer.new → IsAtEnd (R.remaining input.new)) }
{
    let mut n = 0;
    while n < buffer.len() {
        let more = input.read(&mut buffer[n..])?;
        if more == 0 {
            break;
        }
        n += more;
    }
    Ok(n)
}

// Whether the input had as many bytes as the buffer has. Where it had fewer, its last bytes are gone, and the buffer may hold some of them.
pub fn fill<R: Read>(input: &mut R, buffer: &mut [u8]) -> io::Result<bool>
    ensures full { result ≡ Ok true → Consumes (R.remaining input.old) (R.remaining input.new) buffer.new }
    ensures short { result ≡ Ok false → IsAtEnd (R.remaining input.new) }
{
    Ok(read_full(input, buffer)? == buffer.len())
}
