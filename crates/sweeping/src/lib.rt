// The sweep, past the check: pages with no live item are given back, and then every class's list is linked anew.
#![tactic(auto)]

ghost use Rattle.std.specs.Prelude.{◌≤◌, length};
ghost use Rattle.model.specs.Shape.{shape};
ghost use Rattle.model.specs.Sound.{Sound};
ghost use Rattle.sweeping.specs.Sweep.{SweepDone};

use recovering::recover;
use relinking::link_anew;
use words::Width;

// Sweeps the heap: how many pages came back.
pub fn sweep<W: Width>(h: &mut [u8]) -> usize
    requires { Sound (shape W.BYTES) h.old × (length h.old ≤ (shape W.BYTES).most) }
    ensures { SweepDone W.BYTES h.old result h.new }
{
    let count = recover::<W>(h);
    link_anew::<W>(h);
    count
}
