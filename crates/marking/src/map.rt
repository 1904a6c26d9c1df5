// The map of free items: a bit for each word from the index page on, the mark of the item whose header stands there.
ghost use Rattle.std.specs.Prelude.{◌≡◌, ◌^◌, ◌<◌};
ghost use Rattle.marking.specs.Maps.{offset_bit, at_bit, map_end};

use model::{ItemOffset, Position, item_at};
use words::Width;

// The bit of the item with offset o, whatever a damaged heap gives for one; that of offset 0, the end of a list, has never a mark.
pub fn offset_bit<W: Width>(o: ItemOffset) -> usize
    ensures { result ≡ offset_bit W.BYTES o.0 }
{
    o.0 / W::BYTES
}

// Where the item of bit i has its header.
pub fn at_bit<W: Width>(i: usize) -> Position
    requires { at_bit W.BYTES i < 2 ^ 32 }
    ensures { result.0 ≡ at_bit W.BYTES i }
{
    item_at::<W>(ItemOffset(W::BYTES * i))
}

// Where the words end that a map of so many words of 64 bits has bits for.
pub fn map_end<W: Width>(words: usize) -> Position
    requires { map_end W.BYTES words < 2 ^ 32 }
    ensures { result.0 ≡ map_end W.BYTES words }
{
    at_bit::<W>(64 * words)
}
