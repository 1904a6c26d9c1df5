// A variable block is resized where it stands: its tail is given back, or it grows over a free neighbour behind it.
#![tactic(auto)]

ghost use Rattle.releasing.specs.Release.{BlockLive};
ghost use Rattle.reshaping.specs.Reshape.{Reach, Large, Reshaped};

use find::UsedBlock;
use links::{back_at, link_at};
use model::{Position, VARIABLE, least_free, need_of};
use placing::{Gap, put_high, put_low, taken};
use releasing::right_edge;
use words::Width;

// The block x and a free neighbour behind it, read as one gap.
fn reach<W: Width>(h: &[u8], x: UsedBlock) -> Gap
    requires { BlockLive W.BYTES h.now x }
    ensures { Reach W.BYTES h.now x result }
{
    let at = x.at;
    let prev = x.prev;
    let link = link_at::<W>(prev);
    let after = Position(W::word(h, link.0));
    let edge = right_edge::<W>(h, Position(at.0 + x.size), after);
    let next = edge.free;
    let back = back_at::<W>(h, next);
    Gap {
        at: at,
        size: edge.at.0 - at.0,
        next: next,
        prev: prev,
        link: link,
        back: back,
    }
}

// Resizes the block x to n bytes where it stands: true; or false where it must move, and nothing changes.
pub fn reshape<W: Width>(h: &mut [u8], x: UsedBlock, n: usize) -> bool
    requires block_live { BlockLive W.BYTES h.old x }
    requires large { Large W.BYTES n }
    ensures { Reshaped W.BYTES h.old x n result h.new }
{
    let need = need_of::<W>(n);
    let g = reach::<W>(h, x);
    if g.size < need {
        return false;
    }
    if need <= x.size {
        if x.size < need + least_free::<W>() {
            return true;
        }
    }
    let u = taken::<W>(need, g.size);
    put_low::<W>(h, g, u, VARIABLE);
    put_high::<W>(h, g, u, VARIABLE);
    true
}
