// A sound heap, lent for reading.
use std::marker::{Model, PhantomData};
use words::Width;

// The bytes of a sound heap, lent for reading. Where one is made it is proved sound, so what reads it asks nothing of its caller.
#[derive_where(Clone)]
#[derive(Drop)]
pub struct SoundHeap<'a, W: Width> {
    pub bytes: &'a [u8],
    pub width: PhantomData<W>,
}

impl<'a, W: Width> Model for SoundHeap<'a, W> {
    ghost use Rattle.std.specs.Prelude.{List, ℕ};
    ghost use Rattle.model.specs.Shape.{shape};
    ghost use Rattle.model.specs.Sound.{Sound};

    ghost Value = { List ℕ };

    ghost view = { λ a. a.bytes.now };

    ghost invariant = { λ a. Sound (shape W.BYTES) a.bytes.now };
}
