// A block in use is made of the low end of a free block, or of the whole of it.
#![tactic(auto)]

ghost use Rattle.std.specs.Prelude.{◌≡◌, ◌+◌, ◌<◌, ◌^◌, length};
ghost use Rattle.model.specs.Shape.{shape, least_free};
ghost use Rattle.model.specs.Picture.{draw};
ghost use Rattle.model.specs.inner.Walks.{Spotted};
ghost use Rattle.model.specs.inner.Links.{put_if, takes, rest_at};
ghost use Rattle.placing.specs.Blocks.{GapRoom, GapRead, PartRoom, Needed, Placed, low_words, high_words};

use links::{back_at, link_at, put_free, put_if};
use model::{Position, VARIABLE, far_tag_at, least_free, next_at, previous_at, tag_of};
use words::Width;

// A free block: where it begins, its size, the free blocks behind and before it, and where the links to it from there stand.
// 0 is none, as it stands in a link and is written back into one.
#[derive(Clone, Copy)]
pub struct Gap {
    pub at: Position,
    pub size: usize,
    pub next: Position,
    pub prev: Position,
    pub link: Position,
    pub back: Position,
}

// The free block at p, read.
pub fn read<W: Width>(h: &[u8], p: Position) -> Gap
    requires { GapRoom W.BYTES h.now p.0 }
    ensures { GapRead W.BYTES h.now p.0 result }
{
    let size = W::word(h, p.0);
    let next = Position(W::word(h, next_at::<W>(p).0));
    let prev = Position(W::word(h, previous_at::<W>(p, size).0));
    let link = link_at::<W>(prev);
    let back = back_at::<W>(h, next);
    Gap {
        at: p,
        size: size,
        next: next,
        prev: prev,
        link: link,
        back: back,
    }
}

// What a block in use takes of a free block of size s: its need, or the whole where too little would remain.
pub fn taken<W: Width>(need: usize, s: usize) -> usize
    requires { need + least_free (shape W.BYTES) < 2 ^ 64 }
    ensures { result ≡ takes (shape W.BYTES) need s }
{
    if need + least_free::<W>() <= s {
        need
    } else {
        s
    }
}

// The first words of a block in use of size u and of the given kind in the gap: the link past it, and its tag.
pub fn put_low<W: Width>(h: &mut [u8], g: Gap, u: usize, kind: usize)
    requires { PartRoom W.BYTES (length h.old) g u kind }
    ensures { h.new ≡ draw W.BYTES (low_words W.BYTES g u kind) h.old }
{
    let first = if u < g.size {
        Position(g.at.0 + u)
    } else {
        g.next
    };
    W::put_word(h, g.link.0, first.0);
    W::put_word(h, g.at.0, tag_of(u, kind));
}

// Its last words: its far tag, the free rest, and the link back past it.
pub fn put_high<W: Width>(h: &mut [u8], g: Gap, u: usize, kind: usize)
    requires { PartRoom W.BYTES (length h.old) g u kind }
    ensures { h.new ≡ put_if (shape W.BYTES) (draw W.BYTES (high_words W.BYTES g u kind) h.old) g.back.0 (rest_at (shape W.BYTES) u g.size g.at.0 g.prev.0) }
{
    let q = Position(g.at.0 + u);
    W::put_word(h, far_tag_at::<W>(g.at, u).0, tag_of(u, kind));
    if u < g.size {
        put_free::<W>(h, q, g.size - u, g.prev, g.next);
        put_if::<W>(h, g.back, q);
    } else {
        put_if::<W>(h, g.back, g.prev);
    }
}

// A variable block of size need is made of the free block at p.
pub fn take<W: Width>(h: &mut [u8], p: Position, need: usize)
    requires spotted { Spotted (shape W.BYTES) h.old p.0 need }
    requires needed { Needed W.BYTES (length h.old) need }
    ensures { Placed W.BYTES h.old p.0 need h.new }
{
    let g = read::<W>(h, p);
    let u = taken::<W>(need, g.size);
    put_low::<W>(h, g, u, VARIABLE);
    put_high::<W>(h, g, u, VARIABLE);
}
