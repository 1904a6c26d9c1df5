// The search for room: the lowest free block that fits.
#![tactic(auto)]

ghost use Rattle.std.specs.Prelude.{◌≡◌};
ghost use Rattle.model.specs.Shape.{shape};
ghost use Rattle.model.specs.Layout.{Layout};
ghost use Rattle.model.specs.Sound.{Here, Sound};
ghost use Rattle.model.specs.Rules.{fit};
ghost use Rattle.fitting.specs.Fitting.{position_of};

use model::{Position, first_free_at, next_at};
use words::Width;

// The position of the lowest free block of size at least need.
pub fn find_fit<W: Width>(h: &[u8], need: usize) -> Option<Position>
    requires { Sound (shape W.BYTES) h.now }
    ensures { (L : Layout) → Here (shape W.BYTES) h.now L → result ≡ position_of W.BYTES (fit need L.blocks) }
{
    let mut p = Position(W::word(h, first_free_at::<W>().0));
    while p.0 != 0 {
        let s = W::word(h, p.0);
        if need <= s {
            return Some(p);
        }
        p = Position(W::word(h, next_at::<W>(p).0));
    }
    None
}
