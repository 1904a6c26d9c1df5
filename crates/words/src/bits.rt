// A map of bits in words of 64: bit i is bit i % 64 of word i / 64. A bit's number is below 2^32, so that the compiler needs no mask of 64 bits to find its word.
ghost use Rattle.std.specs.Prelude.{◌≡◌, ℕ, ◌/◌, ◌<◌, ◌≤◌, ◌^◌, length};
ghost use Rattle.words.specs.Bits.{bit_at, marked, BitIn};

// The word of bit i.
fn word_of(i: usize) -> usize
    requires { i < 2 ^ 32 }
    ensures { result ≡ i / 64 }
{
    (i as u32 / 64) as usize
}

// Bit i.
pub fn test(m: &[u64], i: usize) -> u64
    requires { BitIn m.now i }
    ensures { result ≡ bit_at m.now i }
{
    let w = word_of(i);
    let k = i % 64;
    (m[w] >> k) % 2
}

// Sets bit i, which is clear.
pub fn mark(m: &mut [u64], i: usize)
    requires { BitIn m.old i × (bit_at m.old i ≡ 0) }
    ensures { m.new ≡ marked m.old i }
{
    let w = word_of(i);
    let k = i % 64;
    m[w] = m[w] + (1u64 << k);
}

// The bits of one map in a longer one, which is clear.
pub fn spread(from: &[u64], to: &mut [u64])
    requires { (length from.now ≤ length to.old) × ((j : ℕ) → bit_at to.old j ≡ 0) }
    ensures { (j : ℕ) → bit_at to.new j ≡ bit_at from.now j }
{
    to[..from.len()].copy_from_slice(from);
}
