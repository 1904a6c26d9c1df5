// What is live at an address: found by a walk over blocks, from the last free one below it on, so that no payload and no stale word can pass for a tag.
// Calls that write come by here too, on a heap that the next write changes, so here, in `fitting` and in `holding` `requires` says that the bytes are sound; for reading alone it is a type (`reading::heap::SoundHeap`).
#![tactic(auto)]

ghost use Rattle.std.specs.Prelude.{◌≡◌, ◌+◌, ◌≤◌, length};
ghost use Rattle.model.specs.Shape.{shape};
ghost use Rattle.model.specs.Layout.{Layout};
ghost use Rattle.model.specs.Sound.{Here, Sound};
ghost use Rattle.find.specs.Find.{Finds, OnBlock, OnPage, behind_at, touches_at, Nearest};

use model::{
    Address, FREE, HELD, Position, VARIABLE, address_of, asked_in, class_in, end_of, first_free_at,
    first_item_at, flags_in, item_size, items_in_page, kind_in, next_at, position_of, size_in,
    start,
};
use words::Width;

// A block in use: where it stands, its size, the last free block before it, and whether that touches it.
// prev is 0 where there is none: it is the link's own word, which is written back as it is.
#[derive(Clone, Copy)]
pub struct UsedBlock {
    pub at: Position,
    pub size: usize,
    pub prev: Position,
    pub touching: bool,
}

// What is live at an address: an item, by its header's position, its class and the size that was asked for (0: not known); or a variable block.
#[derive(Clone, Copy)]
pub enum Live {
    Item {
        at: Position,
        class: usize,
        asked: usize,
    },
    Variable(UsedBlock),
}

// The item whose payload begins at a, in the page at p.
fn in_page<W: Width>(h: &[u8], p: Position, a: Address) -> Option<Live>
    requires { OnPage W.BYTES h.now p.0 a.0 }
    ensures { (L : Layout) → Here (shape W.BYTES) h.now L → Finds W.BYTES L a.0 result }
{
    let item = first_item_at::<W>(p);
    let first = address_of::<W>(item);
    if a.0 < first.0 {
        return None;
    }
    let class = class_in::<W>(W::word(h, item.0));
    let size = item_size::<W>(class);
    let d = a.0 - first.0;
    if d % size != 0 {
        return None;
    }
    if items_in_page::<W>(class) <= d / size {
        return None;
    }
    let at = position_of::<W>(a);
    let header = W::word(h, at.0);
    if flags_in(header) != HELD {
        return None;
    }
    Some(Live::Item {
        at,
        class,
        asked: asked_in(header),
    })
}

// What is live at a, in the block at p with the tag t that reaches past a.
fn in_block<W: Width>(
    h: &[u8],
    p: Position,
    t: usize,
    prev: Position,
    touching: bool,
    a: Address,
) -> Option<Live>
    requires { OnBlock W.BYTES h.now p.0 t prev.0 touching a.0 }
    ensures { (L : Layout) → Here (shape W.BYTES) h.now L → Finds W.BYTES L a.0 result }
{
    let kind = kind_in(t);
    if kind == FREE {
        return None;
    }
    if kind != VARIABLE {
        return in_page::<W>(h, p, a);
    }
    if a.0 != address_of::<W>(p).0 {
        return None;
    }
    Some(Live::Variable(UsedBlock {
        at: p,
        size: size_in(t),
        prev,
        touching,
    }))
}

// The last free block below a, found along the list of the free ones, which is in order of position; 0: none.
pub fn last_free<W: Width>(h: &[u8], a: Address) -> Position
    requires { Sound (shape W.BYTES) h.now }
    ensures { (L : Layout) → Here (shape W.BYTES) h.now L → Nearest W.BYTES h.now L a.0 result.0 }
{
    let mut prev = Position(0);
    let mut next = Position(W::word(h, first_free_at::<W>().0));
    while next.0 != 0 {
        if a.0 <= next.0 {
            return prev;
        }
        prev = next;
        next = Position(W::word(h, next_at::<W>(prev).0));
    }
    prev
}

// Where the block behind the free one at prev begins; the first of all, where prev is 0.
fn behind<W: Width>(h: &[u8], prev: Position) -> Position
    requires { (prev.0 + W.BYTES ≤ length h.now) × (behind_at W.BYTES h.now prev.0 ≤ length h.now) }
    ensures { result.0 ≡ behind_at W.BYTES h.now prev.0 }
{
    if prev.0 == 0 {
        return start::<W>();
    }
    Position(prev.0 + W::word(h, prev.0))
}

// Whether the free block at prev, behind which blocks begin at `begin`, touches the block at p.
fn touches(prev: Position, begin: Position, p: Position) -> bool
    ensures { result ≡ touches_at prev.0 begin.0 p.0 }
{
    if prev.0 == 0 {
        return false;
    }
    p.0 == begin.0
}

// What is live at a.
pub fn find<W: Width>(h: &[u8], a: Address) -> Option<Live>
    requires { Sound (shape W.BYTES) h.now }
    ensures { (L : Layout) → Here (shape W.BYTES) h.now L → Finds W.BYTES L a.0 result }
{
    if a.0 < start::<W>().0 {
        return None;
    }
    if end_of(h.len()).0 <= a.0 {
        return None;
    }
    let prev = last_free::<W>(h, a);
    let begin = behind::<W>(h, prev);
    if a.0 < begin.0 {
        return None;
    }
    let mut p = begin;
    // No range: each turn goes on by the length that the tag has just said.
    loop {
        let t = W::word(h, p.0);
        let next = Position(p.0 + size_in(t));
        if a.0 < next.0 {
            return in_block::<W>(h, p, t, prev, touches(prev, begin, p), a);
        }
        p = next;
    }
}
