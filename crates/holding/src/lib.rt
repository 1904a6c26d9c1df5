// What a live address holds, and how much of it is shown.
// The two functions share find and one arm; one function with the other arm as a closure is longer and no plainer.
#![tactic(auto)]

ghost use Rattle.model.specs.Shape.{shape};
ghost use Rattle.model.specs.Sound.{Sound};
ghost use Rattle.model.specs.Rules.{capacity, shown_of};
ghost use Rattle.holding.specs.Holding.{Holds};

use find::{Live, find};
use model::{Address, block_capacity, item_capacity, item_shown};
use words::Width;

// How many bytes the payload at a has; None where nothing is live.
pub fn capacity<W: Width>(h: &[u8], a: Address) -> Option<usize>
    requires { Sound (shape W.BYTES) h.now }
    ensures { Holds W.BYTES (capacity (shape W.BYTES)) h.now a.0 result }
{
    Some(match find::<W>(h, a)? {
        Live::Item { class, .. } => item_capacity::<W>(class),
        Live::Variable(b) => block_capacity::<W>(b.size),
    })
}

// How many of them a look-up shows; None where nothing is live: of an item as many as were asked for, or all where that is not known.
pub fn shown<W: Width>(h: &[u8], a: Address) -> Option<usize>
    requires { Sound (shape W.BYTES) h.now }
    ensures { Holds W.BYTES (shown_of (shape W.BYTES)) h.now a.0 result }
{
    Some(match find::<W>(h, a)? {
        Live::Item { class, asked, .. } => item_shown::<W>(class, asked),
        Live::Variable(y) => block_capacity::<W>(y.size),
    })
}
