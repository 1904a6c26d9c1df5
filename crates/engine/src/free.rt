// What is live at an address is given back.
ghost use Rattle.engine.specs.Free.{GivesBack};
ghost use Rattle.engine.specs.Ready.{Ready};

use find::{Live, find};
use items::give;
use model::Address;
use releasing::release;
use words::Width;

// Gives back what is live at a; or answers None where nothing is, and nothing changes.
pub fn free<W: Width>(h: &mut [u8], a: Address) -> Option<()>
    requires { Ready W.BYTES h.old }
    ensures { GivesBack W.BYTES h.old a.0 result h.new }
{
    match find::<W>(h, a)? {
        Live::Item { at, class, .. } => give::<W>(h, at, class),
        Live::Variable(b) => release::<W>(h, b),
    }
    Some(())
}
