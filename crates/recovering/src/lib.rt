// Pages with no live item are given back, in rising position, each by the ordinary rule.
#![tactic(auto)]

ghost use Rattle.std.specs.Prelude.{◌≡◌, ◌≤◌, cond, length};
ghost use Rattle.model.specs.Shape.{shape};
ghost use Rattle.model.specs.Parts.{kind_in, page_kind};
ghost use Rattle.model.specs.Layout.{Layout};
ghost use Rattle.model.specs.Sound.{Here, Sound};
ghost use Rattle.reading.specs.Counting.{AtPage};
ghost use Rattle.recovering.specs.Recover.{EmptyTold, Recovered};

use find::UsedBlock;
use model::{FREE, PAGE, Position, end_of, kind_in, size_in, start};
use reading::counting::page_at;
use releasing::release;
use words::Width;

// Whether the block at p, of tag t, is a page with no live item.
fn empty_page<W: Width>(h: &[u8], p: Position, t: usize) -> bool
    requires { kind_in t ≡ page_kind → AtPage W.BYTES h.now p.0 }
    ensures { EmptyTold W.BYTES h.now p.0 t result }
{
    if kind_in(t) != PAGE {
        return false;
    }
    page_at::<W>(h, p).held == 0
}

// Where a block at p begins once it is given back: the free block at prev, where that touches it, is a part of it then.
fn joined_at(p: Position, prev: Position, touching: bool) -> Position
    ensures { result.0 ≡ cond touching prev.0 p.0 }
{
    if touching { prev } else { p }
}

// Gives back every page with no live item: how many there were.
pub fn recover<W: Width>(h: &mut [u8]) -> usize
    requires { Sound (shape W.BYTES) h.old × (length h.old ≤ (shape W.BYTES).most) }
    ensures { (L : Layout) → Here (shape W.BYTES) h.old L → Recovered W.BYTES h.old L result h.new }
{
    let end = end_of(h.len());
    let mut p = start::<W>();
    let mut prev = Position(0);
    let mut touching = false;
    let mut count = 0;
    // No loop over `blocks`: the heap changes under the walk, and a block that is given back joins the one before it.
    while p.0 < end.0 {
        let t = W::word(h, p.0);
        let size = size_in(t);
        if kind_in(t) == FREE {
            prev = p;
            touching = true;
            p = Position(p.0 + size);
        } else {
            let empty = empty_page::<W>(h, p, t);
            count += empty as usize;
            if empty {
                let page = UsedBlock {
                    at: p,
                    size,
                    prev,
                    touching,
                };
                release::<W>(h, page);
                prev = joined_at(p, prev, touching);
                touching = true;
                p = Position(prev.0 + W::word(h, prev.0));
            } else {
                touching = false;
                p = Position(p.0 + size);
            }
        }
    }
    count
}
