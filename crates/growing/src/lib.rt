// A heap that grows: where an allocation finds nothing, a free block of exactly its need is written at the heap's end, and then the ordinary rule runs.
#![tactic(auto)]

ghost use Rattle.std.specs.Prelude.{◌≡◌, ◌≤◌, length};
ghost use Rattle.model.specs.Shape.{shape};
ghost use Rattle.model.specs.Sound.{stored_end};
ghost use Rattle.model.specs.Rules.{wanted};
ghost use Rattle.telling.specs.Tells.{Tells};
ghost use Rattle.engine.specs.Allocate.{Asked};
ghost use Rattle.engine.specs.Ready.{Ready};
ghost use Rattle.growing.specs.Growing.{Whole, EdgeAt, FreeBefore, ExtendRoom, extended_bytes, Holding, RoomToGrow, Grown, Runs, Fills, Ran, Takes, Relocates};
ghost use Rattle.std.specs.Fn.{FnOnceTakesAtMut};

use ending::stored_end;
use find::last_free;
use links::put_linked;
use model::{
    Address, FREE, Position, Refusal, class_of, end_at, grows, items_in_page, kind_in,
    largest_item, need_of, page_need, previous_at,
};
use telling::tag_before;
use words::Width;

// The block that n bytes want where no free item will do: a page, or one of their own.
fn wanted<W: Width>(n: usize) -> usize
    requires { Asked W.BYTES n }
    ensures { result ≡ wanted (shape W.BYTES) n }
{
    if n <= largest_item::<W>() {
        let c = class_of(n);
        return page_need::<W>(c, items_in_page::<W>(c));
    }
    need_of::<W>(n)
}

// Where a free block that grows the heap begins: at a last block that is free, or else at the end.
fn edge<W: Width>(h: &[u8]) -> Position
    requires { Whole W.BYTES h.now }
    ensures { EdgeAt W.BYTES h.now result.0 }
{
    let end = Position(h.len());
    let t = tag_before::<W>(h, end);
    if kind_in(t) == FREE {
        return Position(end.0 - t);
    }
    end
}

// The free block before that place: named by a last block that is free, or else the last on the list.
fn free_before<W: Width>(h: &[u8], from: Position) -> Position
    requires whole { Whole W.BYTES h.now }
    requires edge_at { EdgeAt W.BYTES h.now from.0 }
    ensures { FreeBefore W.BYTES h.now result.0 }
{
    let end = h.len();
    if from.0 == end {
        return last_free::<W>(h, Address(end));
    }
    Position(W::word(h, previous_at::<W>(from, end - from.0).0))
}

// Ends the heap with these bytes, the last of them a free block from `from` on.
fn extend<W: Width>(h: &mut [u8], from: Position, before: Position)
    requires { ExtendRoom W.BYTES (length h.old) from.0 before.0 }
    ensures { h.new ≡ extended_bytes W.BYTES h.old from.0 before.0 }
{
    let end = Position(h.len());
    W::put_word(h, end_at::<W>().0, end.0);
    put_linked::<W>(h, from, end, before, Position(0));
}

// Whether a heap with that end has room to grow in a buffer of n bytes.
fn room_to_grow<W: Width>(n: usize, end: usize) -> bool
    requires { end ≤ n }
    ensures { Tells result (RoomToGrow W.BYTES n end) }
{
    if !grows::<W>() {
        return false;
    }
    n - end >= 8
}

// Grows the heap for n bytes, for which it has no room: its new end; or None where that would pass the buffer's.
fn grow<W: Width>(h: &mut [u8], end: Position, n: usize) -> Option<Position>
    requires holding { Holding W.BYTES h.old × (end.0 ≡ stored_end (shape W.BYTES) h.old) }
    requires asked { Asked W.BYTES n }
    ensures { Grown W.BYTES h.old n result h.new }
{
    let e = end.0;
    if !room_to_grow::<W>(h.len(), e) {
        return None;
    }
    let need = wanted::<W>(n);
    let from = edge::<W>(&h[0..e]);
    if h.len() - from.0 < need {
        return None;
    }
    let before = free_before::<W>(&h[0..e], from);
    let to = from.0 + need;
    extend::<W>(&mut h[0..to], from, before);
    Some(Position(to))
}

// Runs what allocates n bytes, in the heap that the buffer holds, and has that grow where they find no room: then they find it the second time.
fn run<W: Width, F: Fn(&mut [u8]) -> Result<Address, Refusal>>(
    h: &mut [u8],
    n: usize,
    f: F,
) -> Result<Address, Refusal>
    requires holding { Holding W.BYTES h.old }
    requires asked { Asked W.BYTES n }
    requires runs { (b : _) → Ready W.BYTES b → FnOnceTakesAtMut F.FnOnce f b }
    requires fills { Fills W.BYTES n (Runs F.Fn f) }
    ensures { Ran W.BYTES h.old n (Runs F.Fn f) result h.new }
{
    let mut end = stored_end::<W>(h);
    loop {
        match f(&mut h[0..end.0]) {
            Ok(a) => return Ok(a),
            // Within, since beside a pattern `Err(NoRoom)` the proof of the other arm would not know that it is another refusal.
            Err(k) => match k {
                Refusal::NoRoom => end = grow::<W>(h, end, n).ok_or(k)?,
                _ => return Err(k),
            },
        }
    }
}

// Allocates n bytes in the heap that the buffer holds, and has it grow where they find no room.
pub fn allocate<W: Width>(h: &mut [u8], n: usize) -> Option<Address>
    requires holding { Holding W.BYTES h.old }
    requires asked { Asked W.BYTES n }
    ensures { Takes W.BYTES h.old n result h.new }
{
    run::<W, _>(
        h,
        n,
        |b| engine::allocate::allocate::<W>(b, n).ok_or(Refusal::NoRoom),
    )
    .ok()
}

// Moves what is live at a to n bytes elsewhere in that heap, and has it grow as an allocation does.
pub fn relocate<W: Width>(h: &mut [u8], a: Address, n: usize) -> Result<Address, Refusal>
    requires holding { Holding W.BYTES h.old }
    requires asked { Asked W.BYTES n }
    ensures { Relocates W.BYTES h.old a.0 n result h.new }
{
    run::<W, _>(h, n, |b| resizing::resize::relocate::<W>(b, a, n))
}
