// The calls for a C host, over the width of a word: numbers and a byte slice in, refusal × 2^32 + address out.
// The crates `jagwibodu` and `jagwibodu_hand` give the width, and the calls their names in C.
#![tactic(auto)]

ghost use Rattle.std.specs.Prelude.{◌≡◌, []};
ghost use Rattle.model.specs.Shape.{shape};
ghost use Rattle.model.specs.Calls.{Initialises, Checks, Allocates, Frees, ResizesInPlace, Moves, Resizes, Sweeps};
ghost use Rattle.serving.specs.Answers.{outcome, swept_outcome};
ghost use Rattle.numbering.specs.Numbers.{Numbered};

use model::{Address, Position, Refusal};
use serving::recovery::sweep as swept;
use serving::{Answer, resize as ways};
use words::Width;

// A number that is granted as it is, or a refusal above it.
fn pages(r: Result<usize, Refusal>) -> u64
    ensures { result ≡ Rattle.model.specs.Calls.number (swept_outcome r []) }
{
    match r {
        Ok(n) => n as u64,
        Err(k) => u64::from(k) * 4294967296,
    }
}

// An answer as one number. By `r.map(|a| a.0)` it would be one line, but the closure's clause did not fit the law.
fn number(r: Answer) -> u64
    ensures { result ≡ Rattle.model.specs.Calls.number (outcome r []) }
{
    match r {
        Ok(a) => pages(Ok(a.0)),
        Err(k) => pages(Err(k)),
    }
}

pub fn initialise<W: Width>(h: &mut [u8], end: Position) -> u64
    ensures { Numbered (Initialises (shape W.BYTES) h.old end.0) result h.new }
{
    number(serving::initialise::<W>(h, end))
}

pub fn check<W: Width>(h: &[u8]) -> u64
    ensures { Numbered (Checks (shape W.BYTES) h.now) result h.now }
{
    number(serving::check::<W>(h))
}

pub fn allocate<W: Width>(h: &mut [u8], size: u64) -> u64
    ensures { Numbered (Allocates (shape W.BYTES) h.old size) result h.new }
{
    number(serving::allocate::<W>(h, size as usize))
}

pub fn free<W: Width>(h: &mut [u8], address: u64) -> u64
    ensures { Numbered (Frees (shape W.BYTES) h.old address) result h.new }
{
    number(serving::free::<W>(h, Address(address as usize)))
}

pub fn resize_in_place<W: Width>(h: &mut [u8], address: u64, size: u64) -> u64
    ensures { Numbered (ResizesInPlace (shape W.BYTES) h.old address size) result h.new }
{
    number(ways::resize_in_place::<W>(h, Address(address as usize), size as usize))
}

pub fn relocate<W: Width>(h: &mut [u8], address: u64, size: u64) -> u64
    ensures { Numbered (Moves (shape W.BYTES) h.old address size) result h.new }
{
    number(ways::relocate::<W>(h, Address(address as usize), size as usize))
}

pub fn resize<W: Width>(h: &mut [u8], address: u64, size: u64) -> u64
    ensures { Numbered (Resizes (shape W.BYTES) h.old address size) result h.new }
{
    number(trying::resize::<W>(h, Address(address as usize), size as usize))
}

pub fn sweep<W: Width>(h: &mut [u8]) -> u64
    ensures { Numbered (Sweeps (shape W.BYTES) h.old) result h.new }
{
    pages(swept::<W>(h))
}
