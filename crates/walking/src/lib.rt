// The walk over a heap's blocks, which have to fill the area from the start of the data area to the end.
#![tactic(auto)]

ghost use Rattle.std.specs.Prelude.{◌≡◌, List, ℕ, ◌<◌, length};
ghost use Rattle.marking.specs.Told.{MapSize};
ghost use Rattle.walking.specs.Told.{end_from, WalkRoomAt, StoodAt, Halted, HaltsIn, PassTold, WalkTold};

use marking::map::map_end;
use marking::pages::mark_page;
use model::{FREE, PAGE, Position, VARIABLE, next_at};
use telling::{eights, is_free, is_variable, tag_before};
use words::Width;

// Where a walk stands: how many times 8 bytes are left to the end, the last free block that it met (0 where there is none, as a link back says it), where the link to the next one stands, and how many items are marked.
#[derive(Clone, Copy)]
pub struct Stand {
    pub at: Position,
    pub left: usize,
    pub prev: Position,
    pub link: Position,
    pub marks: usize,
}

// Where a walk that marks has come to: it stands at a page that reaches beyond the map, or it has gone on.
#[derive(Clone, Copy)]
pub enum Reached {
    Beyond(Stand),
    On(Stand),
}

// Walks on over variable and free blocks, to the end or to a block that is neither; nowhere where the heap is not sound.
pub fn pass_blocks<W: Width>(h: &[u8], from: Stand) -> Option<Stand>
    requires { WalkRoomAt W.BYTES h.now (end_from from) from }
    ensures { (m : List ℕ) → StoodAt W.BYTES h.now (end_from from) from m → PassTold W.BYTES h.now (end_from from) (HaltsIn W.BYTES h.now from.left) result m }
{
    let mut at = from;
    // No range: each turn goes on by the length that the block's tag has just said.
    while at.left != 0 {
        let p = at.at;
        let t = W::word(h, p.0);
        let k = eights(t, VARIABLE);
        if k <= at.left {
            let next = Position(p.0 + 8 * k);
            if !is_variable::<W>(h, next, t, 8 * k) {
                return None;
            }
            at = Stand {
                at: next,
                left: at.left - k,
                ..at
            };
        } else {
            let k = eights(t, FREE);
            if at.left < k {
                return Some(at);
            }
            let next = Position(p.0 + 8 * k);
            if !is_free::<W>(h, p, t, 8 * k, at.prev, at.link) {
                return None;
            }
            at = Stand {
                at: next,
                left: at.left - k,
                prev: p,
                link: next_at::<W>(p),
                ..at
            };
        }
    }
    Some(at)
}

// Passes the page at which a walk has halted, and marks its free items; nothing where the heap is not sound.
fn pass_page<W: Width>(h: &[u8], m: &mut [u64], from: Stand) -> Option<Reached>
    requires { Halted W.BYTES h.now (end_from from) from m.old × MapSize (length m.old) × (0 < from.left) }
    ensures { WalkTold W.BYTES h.now (end_from from) (λ s. s.left < from.left) result m.new }
{
    let p = from.at;
    let t = W::word(h, p.0);
    let k = eights(t, PAGE);
    if from.left < k {
        return None;
    }
    let s = 8 * k;
    let at = Position(p.0 + s);
    if map_end::<W>(m.len()).0 < at.0 {
        return Some(Reached::Beyond(from));
    }
    if tag_before::<W>(h, at) != t {
        return None;
    }
    let marks = mark_page::<W>(h, m, p, s, from.marks)?;
    let left = from.left - k;
    Some(Reached::On(Stand {
        at,
        left,
        marks,
        ..from
    }))
}

// Walks on from a page to the end, or to a page that reaches beyond the map; nothing where the heap is not sound.
pub fn mark_blocks<W: Width>(h: &[u8], m: &mut [u64], from: Stand) -> Option<Reached>
    requires { Halted W.BYTES h.now (end_from from) from m.old × MapSize (length m.old) }
    ensures { WalkTold W.BYTES h.now (end_from from) (λ s. s.left ≡ 0) result m.new }
{
    let mut at = from;
    while at.left != 0 {
        match pass_page::<W>(h, m, at)? {
            Reached::Beyond(s) => return Some(Reached::Beyond(s)),
            Reached::On(s) => at = pass_blocks::<W>(h, s)?,
        }
    }
    Some(Reached::On(at))
}
