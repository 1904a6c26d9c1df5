// A step of a walk: what block begins at a position, known by a walk from the data area's start.
ghost use Rattle.std.specs.Prelude.{◌<◌, length};
ghost use Rattle.model.specs.Shape.{end_of};
ghost use Rattle.reading.specs.Stepping.{StartTold, WalkAt, BlockRead, Meets};

use crate::heap::SoundHeap;
use model::{
    FREE, Position, VARIABLE, class_in, end_of, first_item_at, kind_in, next_at, previous_at,
    size_in, start,
};
use words::Width;

// What a block is: free, with its next and its previous free block; variable; or a page, with its class.
#[derive(Clone, Copy)]
pub enum Kind {
    Free { next: Position, previous: Position },
    Variable,
    Page { class: usize },
}

// A walk's answer: where the block stands, its whole size, and what it is.
#[derive(Clone, Copy)]
pub struct MetBlock {
    pub position: Position,
    pub size: usize,
    pub kind: Kind,
}

// The block at which a walk stands. The walk stands behind it next, so that a loop over all blocks is one walk.
pub fn block_at<W: Width>(h: &[u8], at: Position) -> MetBlock
    requires { WalkAt W.BYTES h.now at.0 × (at.0 < end_of (length h.now)) }
    ensures { BlockRead W.BYTES h.now at.0 result }
{
    let t = W::word(h, at.0);
    let size = size_in(t);
    let kind = match kind_in(t) {
        FREE => {
            let next = Position(W::word(h, next_at::<W>(at).0));
            let previous = Position(W::word(h, previous_at::<W>(at, size).0));
            Kind::Free { next, previous }
        }
        VARIABLE => Kind::Variable,
        _ => Kind::Page {
            class: class_in::<W>(W::word(h, first_item_at::<W>(at).0)),
        },
    };
    MetBlock {
        position: at,
        size,
        kind,
    }
}

impl<'a, W: Width> SoundHeap<'a, W> {
    // Whether a block begins at `at`. No loop over `blocks`: a walk by steps is quadratic, so this reads tags alone and stops at `at`.
    fn starts(&self, at: Position) -> bool
        ensures { StartTold W.BYTES self.now at.0 result }
    {
        if end_of(self.bytes.len()).0 <= at.0 {
            return false;
        }
        let mut p = start::<W>();
        while p.0 < at.0 {
            let t = W::word(self.bytes, p.0);
            p = Position(p.0 + size_in(t));
        }
        p.0 == at.0
    }

    // The block that begins at `at`, or none.
    pub fn meet(&self, at: Position) -> Option<MetBlock>
        ensures { Meets W.BYTES self.now at.0 result }
    {
        if self.starts(at) {
            Some(block_at::<W>(self.bytes, at))
        } else {
            None
        }
    }
}
