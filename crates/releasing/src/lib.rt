// A block in use is given back: it becomes free and joins a free neighbour on either side.
#![tactic(auto)]

ghost use Rattle.std.specs.Prelude.{◌≡◌};
ghost use Rattle.releasing.specs.Release.{LeftRoom, RightRoom, left_at, left_free, right_at, right_free, BlockIn, GivenBack};

use find::UsedBlock;
use links::{link_at, put_linked};
use model::{Position, next_at, previous_at};
use words::Width;

// Where a joined block begins or ends, and the free block beyond that: 0 where there is none, as it is written into a link.
#[derive(Clone, Copy)]
pub struct Edge {
    pub at: Position,
    pub free: Position,
}

// The low edge of what the block at p becomes, where the last free block before it is at prev and touches it or not.
fn left_edge<W: Width>(h: &[u8], p: Position, prev: Position, touching: bool) -> Edge
    requires { LeftRoom W.BYTES h.now p.0 prev.0 }
    ensures { (result.at.0 ≡ left_at p.0 prev.0 touching) × (result.free.0 ≡ left_free W.BYTES h.now p.0 prev.0 touching) }
{
    if touching {
        return Edge {
            at: prev,
            free: Position(W::word(h, previous_at::<W>(prev, p.0 - prev.0).0)),
        };
    }
    Edge { at: p, free: prev }
}

// The high edge of what the block that ends at q becomes, where the next free block is at next.
pub fn right_edge<W: Width>(h: &[u8], q: Position, next: Position) -> Edge
    requires { RightRoom W.BYTES h.now q.0 next.0 }
    ensures { (result.at.0 ≡ right_at W.BYTES h.now q.0 next.0) × (result.free.0 ≡ right_free W.BYTES h.now q.0 next.0) }
{
    if next.0 == q.0 {
        return Edge {
            at: Position(q.0 + W::word(h, q.0)),
            free: Position(W::word(h, next_at::<W>(q).0)),
        };
    }
    Edge { at: q, free: next }
}

// Gives the block x back.
pub fn release<W: Width>(h: &mut [u8], x: UsedBlock)
    requires { BlockIn W.BYTES h.old x }
    ensures { GivenBack W.BYTES h.old x h.new }
{
    let q = Position(x.at.0 + x.size);
    let next = Position(W::word(h, link_at::<W>(x.prev).0));
    let low = left_edge::<W>(h, x.at, x.prev, x.touching);
    let high = right_edge::<W>(h, q, next);
    put_linked::<W>(h, low.at, high.at, low.free, high.free);
}
