// Where the heap in a buffer ends: what it names, and whether a heap may end there.
#![tactic(auto)]

ghost use Rattle.std.specs.Prelude.{◌≡◌, ◌≤◌, length};
ghost use Rattle.model.specs.Shape.{shape, start, shortest};
ghost use Rattle.model.specs.Sound.{MayEnd, stored_end, heap_of};
ghost use Rattle.telling.specs.Tells.{Tells};

use model::{Position, end_at, end_of, grows, shortest};
use words::Width;

// The end that the heap names.
pub fn stored_end<W: Width>(h: &[u8]) -> Position
    requires { start (shape W.BYTES) ≤ length h.now }
    ensures { result.0 ≡ stored_end (shape W.BYTES) h.now }
{
    Position(W::word(h, end_at::<W>().0))
}

// The heap's own bytes: the buffer's up to that end.
pub fn heap_of<W: Width>(h: &[u8]) -> &[u8]
    requires { (start (shape W.BYTES) ≤ length h.now) × (stored_end (shape W.BYTES) h.now ≤ length h.now) }
    ensures { result.now ≡ heap_of (shape W.BYTES) h.now }
{
    let end = stored_end::<W>(h).0;
    &h[0..end]
}

// Whether a heap in a buffer of n bytes may end there.
pub fn may_end<W: Width>(n: usize, end: Position) -> bool
    requires { (shortest (shape W.BYTES) ≤ n) × (n ≤ (shape W.BYTES).most) }
    ensures { Tells result (MayEnd (shape W.BYTES) n end.0) }
{
    if !grows::<W>() {
        return end.0 == end_of(n).0;
    }
    if end.0 < shortest::<W>() {
        return false;
    }
    if n < end.0 {
        return false;
    }
    end.0 % 8 == 0
}
