// Resize, way by way: where the record stands, or elsewhere, or as it is. The crate `trying` tries them in turn.
ghost use Rattle.model.specs.Shape.{shape};
ghost use Rattle.model.specs.Calls.{ResizesInPlace, Moves, Keeps};
ghost use Rattle.serving.specs.Answers.{outcome};

use crate::Answer;
use ending::stored_end;
use examining::examine_for;
use model::Address;
use resizing::resize as sizing;
use words::Width;

// Makes the record at a one of n bytes where it stands, or says 6: then it cannot stay. The heap does not grow.
pub fn resize_in_place<W: Width>(h: &mut [u8], a: Address, n: usize) -> Answer
    ensures { ResizesInPlace (shape W.BYTES) h.old a.0 n (outcome result h.new) }
{
    examine_for::<W>(h, n)?;
    let end = stored_end::<W>(h).0;
    sizing::stay::<W>(&mut h[0..end], a, n)
}

// Makes the record at a one of n bytes elsewhere, always, or says 6: then an allocation of n bytes finds nothing, and the heap cannot grow for it.
pub fn relocate<W: Width>(h: &mut [u8], a: Address, n: usize) -> Answer
    ensures { Moves (shape W.BYTES) h.old a.0 n (outcome result h.new) }
{
    examine_for::<W>(h, n)?;
    growing::relocate::<W>(h, a, n)
}

// Says that the record at a stays as it is, since it holds n bytes already, or says 6.
pub fn keep<W: Width>(h: &[u8], a: Address, n: usize) -> Answer
    ensures { Keeps (shape W.BYTES) h.now a.0 n (outcome result h.now) }
{
    let heap = examine_for::<W>(h, n)?;
    sizing::keep::<W>(heap.bytes, a, n)
}
