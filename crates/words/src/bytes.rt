// Bytes copied from one place to another.
ghost use Rattle.std.specs.Prelude.{◌≡◌, ◌+◌, ◌≤◌, length};
ghost use Rattle.words.specs.Copy.{chunk, copied, Room};

// So many bytes are moved at a time where there are as many. Compiled, that is a few wide loads and as many stores.
const CHUNK: usize = 128;

// The chunk at `from` stands at `to` too.
fn copy_chunk(b: &mut [u8], from: usize, to: usize)
    requires { (from + chunk ≤ length b.old) × (to + chunk ≤ length b.old) }
    ensures { b.new ≡ copied from to chunk b.old }
{
    let mut t = [0u8; CHUNK];
    t.copy_from_slice(&b[from..from + CHUNK]);
    b[to..to + CHUNK].copy_from_slice(&t);
}

// The n bytes at `from` stand at `to` too, one after the other; the two places do not overlap. Not `copy_within`: by that `copy` takes 77 instructions and not 55 for 16 bytes, 303 and not 205 for 1000 (callgrind).
fn copy_bytes(b: &mut [u8], from: usize, to: usize, n: usize)
    requires { Room (length b.old) from to n }
    ensures { b.new ≡ copied from to n b.old }
{
    for i in 0..n {
        b[to + i] = b[from + i];
    }
}

// The n bytes at `from` stand at `to` too; the two places do not overlap. The last chunk may cover a part of the one before it.
pub fn copy(b: &mut [u8], from: usize, to: usize, n: usize)
    requires { Room (length b.old) from to n }
    ensures { b.new ≡ copied from to n b.old }
{
    if n < CHUNK {
        copy_bytes(b, from, to, n);
        return;
    }
    let last = n - CHUNK;
    for i in (0..last).step_by(CHUNK) {
        copy_chunk(b, from + i, to + i);
    }
    copy_chunk(b, from + last, to + last);
}
