// What a call finds first, before it does anything: whether the buffer can be a heap, holds one and is sound, and whether a size can be asked for.
#![tactic(auto)]

ghost use Rattle.model.specs.Shape.{shape};
ghost use Rattle.model.specs.Calls.{Lent, GoodSize};
ghost use Rattle.telling.specs.Tells.{Tells};
ghost use Rattle.examining.specs.Examined.{Examined, Judged, ExaminedFor};

use ending::{heap_of, may_end, stored_end};
use model::{Refusal, longest, magic, shortest};
use reading::heap::SoundHeap;
use sound::is_sound;
use std::marker::PhantomData;
use words::{Eight, Width};

// Whether the buffer's length is one that a heap may have.
pub fn is_lent<W: Width>(h: &[u8]) -> bool
    ensures { Tells result (Lent (shape W.BYTES) h.now) }
{
    if h.len() < shortest::<W>() {
        return false;
    }
    h.len() <= longest::<W>()
}

// A sound heap, or a reason to say no.
pub type Verdict = Result<(), Refusal>;

// What every call but initialise finds first: the length, the first 8 bytes, and soundness up to the end that the heap names, in that order.
pub fn verdict<W: Width>(h: &[u8]) -> Verdict
    ensures { Judged W.BYTES h.now result }
{
    if !is_lent::<W>(h) {
        return Err(Refusal::BadLength);
    }
    if Eight::word(h, 0) != magic::<W>() {
        return Err(Refusal::NotOpened);
    }
    if !may_end::<W>(h.len(), stored_end::<W>(h)) {
        return Err(Refusal::NotSound);
    }
    if !is_sound::<W>(heap_of::<W>(h)) {
        return Err(Refusal::NotSound);
    }
    Ok(())
}

// The same, and of a sound heap what may be read: the buffer up to its end. Who reads much of a heap asks this once, and then reads what it lends by the crate `reading`.
pub fn examine<W: Width>(h: &[u8]) -> Result<SoundHeap<'_, W>, Refusal>
    ensures { Examined W.BYTES h.now result }
{
    verdict::<W>(h)?;
    let bytes = heap_of::<W>(h);
    Ok(SoundHeap {
        bytes,
        width: PhantomData,
    })
}

// Whether n bytes can be asked for.
fn is_size<W: Width>(n: usize) -> bool
    ensures { Tells result (GoodSize (shape W.BYTES) n) }
{
    if n == 0 {
        return false;
    }
    n <= longest::<W>()
}

// What `examine` finds, and then whether n bytes can be asked for.
pub fn examine_for<W: Width>(h: &[u8], n: usize) -> Result<SoundHeap<'_, W>, Refusal>
    ensures { ExaminedFor W.BYTES h.now n result }
{
    let heap = examine::<W>(h)?;
    if !is_size::<W>(n) {
        return Err(Refusal::BadSize);
    }
    Ok(heap)
}
