// What the words of one block tell: the size that a tag says, and whether a variable or a free block stands there.
#![tactic(auto)]

ghost use Rattle.std.specs.Prelude.{◌≡◌, ◌-◌, ◌<◌, ◌≤◌, false, length};
ghost use Rattle.words.specs.Word.{word_at};
ghost use Rattle.model.specs.Shape.{shape, least_free, least_variable};
ghost use Rattle.model.specs.Parts.{far_tag_at, previous_at};
ghost use Rattle.telling.specs.Tells.{Tells};
ghost use Rattle.telling.specs.Neighbours.{touches};
ghost use Rattle.telling.specs.Told.{SizeIf, FreeSpot};

use model::{
    FREE, Position, far_tag_at, kind_in, least_free, least_variable, previous_at, size_in,
};
use std::num::wrapping_sub_usize;
use words::Width;

// What a kind is moved up by: 2^61, by which its three bits become the highest of 64.
const HIGHEST: usize = 2305843009213693952;

// The size that the tag t says, in eights of bytes, where it says this kind. Where it says another, the difference of the kinds becomes the highest bits, so that the answer is more than any heap has: one comparison tells both.
pub fn eights(t: usize, kind: usize) -> usize
    requires { kind < 8 }
    ensures { SizeIf t kind result }
{
    let y = wrapping_sub_usize(t, kind);
    size_in(y) / 8 + kind_in(y) * HIGHEST
}

// The tag right before p: that of the block that ends there.
pub fn tag_before<W: Width>(h: &[u8], p: Position) -> usize
    requires { (W.BYTES ≤ p.0) × (p.0 ≤ length h.now) }
    ensures { result ≡ word_at W.BYTES h.now (p.0 - W.BYTES) }
{
    W::word(h, p.0 - W::BYTES)
}

// Whether a block of size s that ends at `end`, and begins with the tag t of a variable one, is one: large enough, and with the same tag at its end.
pub fn is_variable<W: Width>(h: &[u8], end: Position, t: usize, s: usize) -> bool
    requires { (W.BYTES ≤ end.0) × (end.0 ≤ length h.now) }
    ensures { Tells result ((least_variable (shape W.BYTES) ≤ s) × (word_at W.BYTES h.now (end.0 - W.BYTES) ≡ t)) }
{
    if s < least_variable::<W>() {
        return false;
    }
    tag_before::<W>(h, end) == t
}

// Whether a block of size s at p with the tag t of a free one is one: large enough, with the same tag at its end, named by the link, not behind another free block, and with its link back to prev.
pub fn is_free<W: Width>(
    h: &[u8],
    p: Position,
    t: usize,
    s: usize,
    prev: Position,
    link: Position,
) -> bool
    requires { FreeSpot W.BYTES (length h.now) p.0 s link.0 }
    ensures { Tells result ((least_free (shape W.BYTES) ≤ s) × (word_at W.BYTES h.now (far_tag_at (shape W.BYTES) p.0 s) ≡ t) × (word_at W.BYTES h.now link.0 ≡ p.0) × (touches W.BYTES h.now p.0 ≡ false) × (word_at W.BYTES h.now (previous_at (shape W.BYTES) p.0 s) ≡ prev.0)) }
{
    if s < least_free::<W>() {
        return false;
    }
    if W::word(h, far_tag_at::<W>(p, s).0) != t {
        return false;
    }
    if W::word(h, link.0) != p.0 {
        return false;
    }
    if kind_in(tag_before::<W>(h, p)) == FREE {
        return false;
    }
    W::word(h, previous_at::<W>(p, s).0) == prev.0
}
