// The pass over the item lists: each item names one next item, so a list that ends meets none twice, and it is enough that the lists meet as many marked items as there are marks.
#![tactic(auto)]

ghost use Rattle.std.specs.Prelude.{◌≡◌, true, [], ◌≤◌, ◌<◌, length};
ghost use Rattle.model.specs.Shape.{shape, start, end_of};
ghost use Rattle.telling.specs.Tells.{Tells};
ghost use Rattle.marking.specs.Maps.{Marked};
ghost use Rattle.marking.specs.Told.{Sizes};
ghost use Rattle.following.specs.Told.{ListRoom};
ghost use Rattle.visiting.specs.Lists.{Listed, FourEmpty};

use following::count_list;
use model::{classes, head_at};
use words::Width;

// Whether the lists of class c and of the three classes behind it are empty: most are, and one test does for four.
fn are_empty<W: Width>(h: &[u8], c: usize) -> bool
    requires { (start (shape W.BYTES) ≤ length h.now) × (c < (shape W.BYTES).classes) }
    ensures { result ≡ true → FourEmpty W.BYTES h.now c }
{
    if classes::<W>() < c + 4 {
        return false;
    }
    let one = W::word(h, head_at::<W>(c).0);
    let two = W::word(h, head_at::<W>(c + 1).0);
    let three = W::word(h, head_at::<W>(c + 2).0);
    let four = W::word(h, head_at::<W>(c + 3).0);
    one | two | three | four == 0
}

// Whether the lists visit every marked item once and nothing else.
pub fn count_lists<W: Width>(h: &[u8], m: &[u64], before: usize) -> bool
    requires { ListRoom W.BYTES h.now m.now × Marked m.now before }
    ensures { Tells result (Listed W.BYTES h.now (end_of (length h.now)) m.now) }
{
    let mut left = before;
    let mut c = 0;
    // No range has its steps: four classes that are empty are passed at once.
    while c < classes::<W>() {
        if are_empty::<W>(h, c) {
            c += 4;
        } else {
            let Some(n) = count_list::<W>(h, m, c, left) else {
                return false;
            };
            left = n;
            c += 1;
        }
    }
    left == 0
}

// Whether all lists are empty, as they must be where there is no page.
pub fn no_lists<W: Width>(h: &[u8]) -> bool
    requires { Sizes W.BYTES h.now (end_of (length h.now)) }
    ensures { Tells result (Listed W.BYTES h.now (end_of (length h.now)) []) }
{
    let mut any = 0;
    for c in 0..classes::<W>() {
        any |= W::word(h, head_at::<W>(c).0);
    }
    any == 0
}
