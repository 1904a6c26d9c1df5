// All blocks of a heap, one by one: a walk as an iterator.
ghost use Rattle.model.specs.Shape.{end_of};
ghost use Rattle.reading.specs.Stepping.{WalkAt};
ghost use Rattle.reading.specs.Blocks.{FromStart, NextBlock};

use crate::heap::SoundHeap;
use crate::stepping::{MetBlock, block_at};
use model::{Position, end_of, start};
use std::marker::PhantomData;
use words::Width;

// The blocks of a sound heap from `at` on, in rising order.
#[derive(Clone, Copy)]
pub struct HeapBlocks<'a, W: Width> {
    pub h: &'a [u8],
    pub at: Position,
    pub width: PhantomData<W>,
}

impl<'a, W: Width> Iterator for HeapBlocks<'a, W> {
    ghost use Rattle.std.specs.Prelude.{◌-◌, length};
    ghost use Rattle.std.specs.Iterator.{at_most};

    type Item = MetBlock;

    ghost can_next = { λ s. WalkAt W.BYTES s.h.now s.at.0 };

    ghost next_gives = { λ s r t. NextBlock W.BYTES s.h.now s.at.0 r t.h.now t.at.0 };

    ghost remaining = { λ s. at_most (end_of (length s.h.now) - s.at.0) };

    fn next(&mut self) -> Option<MetBlock> {
        if end_of(self.h.len()).0 <= self.at.0 {
            return None;
        }
        let block = block_at::<W>(self.h, self.at);
        self.at = Position(self.at.0 + block.size);
        Some(block)
    }
}

impl<'a, W: Width> SoundHeap<'a, W> {
    // All blocks of the heap.
    pub fn blocks(&self) -> HeapBlocks<'a, W>
        ensures { FromStart W.BYTES self.now result.h.now result.at.0 }
    {
        HeapBlocks {
            h: self.bytes,
            at: start::<W>(),
            width: PhantomData,
        }
    }
}
