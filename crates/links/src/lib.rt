// The words by which free blocks are linked.
#![tactic(auto)]

ghost use Rattle.std.specs.Prelude.{◌≡◌, ◌+◌, ◌<◌, ◌≤◌, ◌^◌, length};
ghost use Rattle.model.specs.Shape.{shape};
ghost use Rattle.model.specs.Parts.{next_at};
ghost use Rattle.model.specs.Picture.{draw};
ghost use Rattle.model.specs.inner.Links.{link_of, back_of, put_if};
ghost use Rattle.links.specs.Links.{BackRoom, FreeRoom, LinkRoom, free_words, linked_bytes};

use model::{Position, far_tag_at, first_free_at, next_at, previous_at};
use words::Width;

// Where the link to what follows the free block at prev stands: in that block, or in the header where prev is 0.
pub fn link_at<W: Width>(prev: Position) -> Position
    requires { next_at (shape W.BYTES) prev.0 < 2 ^ 64 }
    ensures { result.0 ≡ link_of (shape W.BYTES) prev.0 }
{
    if prev.0 == 0 {
        return first_free_at::<W>();
    }
    next_at::<W>(prev)
}

// Where the free block at next has its link back, or 0 where next is 0, which is a link's own word for none.
pub fn back_at<W: Width>(h: &[u8], next: Position) -> Position
    requires { BackRoom W.BYTES h.now next.0 }
    ensures { result.0 ≡ back_of (shape W.BYTES) h.now next.0 }
{
    if next.0 == 0 {
        return Position(0);
    }
    previous_at::<W>(next, W::word(h, next.0))
}

// The position v is written at another, unless that is 0.
pub fn put_if<W: Width>(h: &mut [u8], at: Position, v: Position)
    requires { at.0 + W.BYTES ≤ length h.old }
    ensures { h.new ≡ put_if (shape W.BYTES) h.old at.0 v.0 }
{
    if at.0 != 0 {
        W::put_word(h, at.0, v.0);
    }
}

// A free block of size s at p, between the free blocks at prev and next.
pub fn put_free<W: Width>(h: &mut [u8], p: Position, s: usize, prev: Position, next: Position)
    requires { FreeRoom W.BYTES (length h.old) p.0 s }
    ensures { h.new ≡ draw W.BYTES (free_words W.BYTES p.0 s prev.0 next.0) h.old }
{
    W::put_word(h, p.0, s);
    W::put_word(h, next_at::<W>(p).0, next.0);
    W::put_word(h, previous_at::<W>(p, s).0, prev.0);
    W::put_word(h, far_tag_at::<W>(p, s).0, s);
}

// A free block from `from` to `to`, with the links of the free blocks before and behind it.
pub fn put_linked<W: Width>(
    h: &mut [u8],
    from: Position,
    to: Position,
    before: Position,
    behind: Position,
)
    requires { LinkRoom W.BYTES h.old from.0 to.0 before.0 behind.0 }
    ensures { h.new ≡ linked_bytes W.BYTES h.old from.0 to.0 before.0 behind.0 }
{
    let link = link_at::<W>(before);
    let back = back_at::<W>(h, behind);
    W::put_word(h, link.0, from.0);
    put_free::<W>(h, from, to.0 - from.0, before, behind);
    put_if::<W>(h, back, from);
}
