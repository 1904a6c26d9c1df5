// Words of 4 or 8 bytes in a slice of bytes, bytes copied within one, and maps of bits.
#![tactic(auto)]

pub mod bits;
pub mod bytes;

ghost use Rattle.std.specs.Prelude.{◌≡◌, ◌+◌, ◌≤◌, ℕ, length};
ghost use Rattle.words.specs.Width.{Width};
ghost use Rattle.words.specs.Word.{word_at, put};
ghost use Rattle.words.specs.Widths.{four, eight};

// A width of words, known where a program is compiled. What follows from it is folded away.
pub trait Width {
    const BYTES: usize;

    ghost BYTES: { ℕ };

    // The word that begins at p, the least byte first.
    fn word(b: &[u8], p: usize) -> usize
        requires { p + BYTES ≤ length b.now }
        ensures { result ≡ word_at BYTES b.now p };

    // The word v is written at p.
    fn put_word(b: &mut [u8], p: usize, v: usize)
        requires { p + BYTES ≤ length b.old }
        ensures { b.new ≡ put BYTES b.old p v };

    ghost width: { Width BYTES };
}

// Words of 8 bytes.
#[derive(Clone, Copy, Debug, PartialEq, Eq)]
pub struct Eight;

// Words of 4 bytes.
#[derive(Clone, Copy, Debug, PartialEq, Eq)]
pub struct Four;

impl Width for Eight {
    const BYTES: usize = 8;

    ghost BYTES = { 8 };

    // Compiled, it is one load.
    fn word(b: &[u8], p: usize) -> usize {
        usize::from_le_bytes([
            b[p],
            b[p + 1],
            b[p + 2],
            b[p + 3],
            b[p + 4],
            b[p + 5],
            b[p + 6],
            b[p + 7],
        ])
    }

    // Compiled, it is one store.
    fn put_word(b: &mut [u8], p: usize, v: usize) {
        b[p..p + 8].copy_from_slice(&v.to_le_bytes());
    }

    ghost width = { eight };
}

impl Width for Four {
    const BYTES: usize = 4;

    ghost BYTES = { 4 };

    fn word(b: &[u8], p: usize) -> usize {
        u32::from_le_bytes([b[p], b[p + 1], b[p + 2], b[p + 3]]) as usize
    }

    fn put_word(b: &mut [u8], p: usize, v: usize) {
        let low = (v % 4294967296) as u32;
        b[p..p + 4].copy_from_slice(&low.to_le_bytes());
    }

    ghost width = { four };
}
