// Resize as one call, put together from its three ways, which are calls themselves and are tried in turn.
#![tactic(auto)]

ghost use Rattle.std.specs.Prelude.{◌≡◌};
ghost use Rattle.model.specs.Shape.{shape};
ghost use Rattle.model.specs.Calls.{Resizes};
ghost use Rattle.serving.specs.Answers.{outcome};
ghost use Rattle.trying.specs.Trying.{is_no_room};

use model::{Address, Refusal};
use serving::{Answer, resize as ways};
use words::Width;

// Whether an answer is 6.
fn says_no_room(r: Answer) -> bool
    ensures { result ≡ is_no_room r }
{
    matches!(r, Err(Refusal::NoRoom))
}

// Makes the record at a one of n bytes, there or elsewhere; where there is no room, one that holds n bytes already stays as it is.
pub fn resize<W: Width>(h: &mut [u8], a: Address, n: usize) -> Answer
    ensures { Resizes (shape W.BYTES) h.old a.0 n (outcome result h.new) }
{
    let first = ways::resize_in_place::<W>(h, a, n);
    if !says_no_room(first) {
        return first;
    }
    let second = ways::relocate::<W>(h, a, n);
    if !says_no_room(second) {
        return second;
    }
    ways::keep::<W>(h, a, n)
}
