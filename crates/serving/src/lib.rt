// Every call, over the width of a word: it checks what it is lent, and then does what the rule of documents 01 and 02 says, or refuses and leaves every byte.
// The crate `heap` names them in one place, and is what a program calls.
#![tactic(auto)]

pub mod counting;
pub mod lookup;
pub mod recovery;
pub mod resize;
pub mod walks;

ghost use Rattle.std.specs.Prelude.{length};
ghost use Rattle.model.specs.Shape.{shape, end_of};
ghost use Rattle.model.specs.Calls.{Initialises, Checks, Allocates, Frees};
ghost use Rattle.serving.specs.Answers.{outcome};

use ending::{may_end, stored_end};
use engine::free::free as free_live;
use examining::{examine, examine_for, is_lent, verdict};
use model::{Address, Position, Refusal, end_of, magic};
use words::{Eight, Width};

// What a call that may write answers: an address, or 0 where it gives none, so that all have one type; or why not.
pub type Answer = Result<Address, Refusal>;

// Opens a heap that ends at `end`, in a buffer that holds none yet.
pub fn initialise<W: Width>(h: &mut [u8], end: Position) -> Answer
    ensures { Initialises (shape W.BYTES) h.old end.0 (outcome result h.new) }
{
    if !is_lent::<W>(h) {
        return Err(Refusal::BadLength);
    }
    if Eight::word(h, 0) == magic::<W>() {
        return Err(Refusal::AlreadyOpened);
    }
    if !may_end::<W>(h.len(), end) {
        return Err(Refusal::BadEnd);
    }
    fresh::lay::<W>(&mut h[0..end.0]);
    Ok(Address(0))
}

// Opens a heap in all of a buffer that holds none yet: as one that does not grow is opened.
pub fn initialise_whole<W: Width>(h: &mut [u8]) -> Answer
    ensures { Initialises (shape W.BYTES) h.old (end_of (length h.old)) (outcome result h.new) }
{
    let end = end_of(h.len());
    initialise::<W>(h, end)
}

// Says whether the buffer holds a sound heap.
pub fn check<W: Width>(h: &[u8]) -> Answer
    ensures { Checks (shape W.BYTES) h.now (outcome result h.now) }
{
    verdict::<W>(h)?;
    Ok(Address(0))
}

// Gives a record of n bytes.
pub fn allocate<W: Width>(h: &mut [u8], n: usize) -> Answer
    ensures { Allocates (shape W.BYTES) h.old n (outcome result h.new) }
{
    examine_for::<W>(h, n)?;
    growing::allocate::<W>(h, n).ok_or(Refusal::NoRoom)
}

// Gives back the record at a.
pub fn free<W: Width>(h: &mut [u8], a: Address) -> Answer
    ensures { Frees (shape W.BYTES) h.old a.0 (outcome result h.new) }
{
    examine::<W>(h)?;
    let end = stored_end::<W>(h).0;
    match free_live::<W>(&mut h[0..end], a) {
        Some(()) => Ok(Address(0)),
        None => Err(Refusal::NotLive),
    }
}
