// The free block before a variable block, found again without a walk once an allocation may have taken it.
ghost use Rattle.moving.specs.Mend.{Mendable, Mended};

use find::UsedBlock;
use model::{FREE, Position, kind_in, size_in};
use words::Width;

// The block x as it is found now; `before` is the free block that stood before the one at x's prev.
pub fn mend<W: Width>(h: &[u8], x: UsedBlock, before: Position) -> UsedBlock
    requires { Mendable W.BYTES h.now x before.0 }
    ensures { Mended W.BYTES h.now x before.0 result }
{
    if x.prev.0 == 0 {
        return x;
    }
    let t = W::word(h, x.prev.0);
    if kind_in(t) == FREE {
        return x;
    }
    let q = Position(x.prev.0 + size_in(t));
    if kind_in(W::word(h, q.0)) == FREE {
        return UsedBlock { prev: q, ..x };
    }
    UsedBlock {
        prev: before,
        touching: false,
        ..x
    }
}
