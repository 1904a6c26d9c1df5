// What parts of a heap are at any number of bytes a word, also one that no heap has.
ghost use Rattle.std.specs.Prelude.{◌≡◌, ◌+◌, ◌*◌, ◌≤◌, ◌<◌, ◌^◌};
ghost use Rattle.model.specs.Shape.{shape, position_of};
ghost use Rattle.model.specs.inner.Pages.{least_page};
ghost use Rattle.model.specs.Parts.{data_at, far_tag_at, next_at, first_item_at};

use crate::{Address, MOST_BYTES, Position, WIDE};

// The magic number.
pub fn magic(w: usize) -> usize
    ensures { result ≡ (shape w).magic }
{
    if w == WIDE {
        0x01636f6c6c617978
    } else {
        0x02636f6c6c617978
    }
}

// The bytes of the longest heap.
pub fn longest(w: usize) -> usize
    ensures { result ≡ (shape w).most }
{
    if w == WIDE { MOST_BYTES } else { 65536 }
}

// The bytes that n pages take at least.
pub fn paged_bytes(w: usize, n: usize) -> usize
    requires { n < 2 ^ 32 }
    ensures { result ≡ n * least_page w }
{
    if w == WIDE { n * 4096 } else { n * 32 }
}

// Whether a heap may end before its buffer does, and grow.
pub fn grows(w: usize) -> bool
    ensures { result ≡ (shape w).grows }
{
    w == WIDE
}

// How many classes, the lowest, are handed out.
pub fn offered(w: usize) -> usize
    ensures { result ≡ (shape w).offered }
{
    16
}

// Where the header names the data area.
pub fn data_at(w: usize) -> Position
    ensures { result.0 ≡ data_at (shape w) }
{
    Position(8)
}

// The position of the tag or header before the payload at a.
pub fn position_of(w: usize, a: Address) -> Position
    requires { w ≤ a.0 }
    ensures { result.0 ≡ position_of (shape w) a.0 }
{
    Position(a.0 - w)
}

// The far tag of a block of s bytes at p.
pub fn far_tag_at(w: usize, p: Position, s: usize) -> Position
    requires { (w ≤ p.0 + s) × (p.0 + s < 2 ^ 64) }
    ensures { result.0 ≡ far_tag_at (shape w) p.0 s }
{
    Position(p.0 + s - w)
}

// The next link of a free block at p.
pub fn next_at(w: usize, p: Position) -> Position
    requires { p.0 + w < 2 ^ 64 }
    ensures { result.0 ≡ next_at (shape w) p.0 }
{
    Position(p.0 + w)
}

// The first item of a page at p: where a free block has its next link.
pub fn first_item_at(w: usize, p: Position) -> Position
    requires { p.0 + w < 2 ^ 64 }
    ensures { result.0 ≡ first_item_at (shape w) p.0 }
{
    next_at(w, p)
}
