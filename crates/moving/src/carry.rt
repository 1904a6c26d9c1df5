// The first half of a move: room is found while the old record still stands, and its bytes are copied there.
ghost use Rattle.engine.specs.Allocate.{Asked};
ghost use Rattle.moving.specs.Move.{Holding, Carried};

use engine::allocate::allocate;
use model::Address;
use words::Width;
use words::bytes::copy;

// Allocates n bytes, and copies there what fits of the k bytes of the record at a.
pub fn carry<W: Width>(h: &mut [u8], a: Address, k: usize, n: usize) -> Option<Address>
    requires holding { Holding W.BYTES h.old a.0 k }
    requires asked { Asked W.BYTES n }
    ensures { Carried W.BYTES h.old a.0 k n result h.new }
{
    let new = allocate::<W>(h, n)?;
    copy(h, a.0, new.0, k.min(n));
    Some(new)
}
