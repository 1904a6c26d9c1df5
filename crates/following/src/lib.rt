// The count along one item list.
#![tactic(auto)]

ghost use Rattle.std.specs.Prelude.{◌<◌, length};
ghost use Rattle.words.specs.Word.{word_at};
ghost use Rattle.model.specs.Shape.{shape, end_of};
ghost use Rattle.model.specs.Parts.{head_at};
ghost use Rattle.following.specs.Told.{NextBit, ListRoom, ListTold};

use marking::map::{at_bit, offset_bit};
use model::{ItemOffset, class_and_flags, free_mark, head_at, next_in};
use std::num::wrapping_sub_usize;
use words::{Width, bits};

// What class and flags are moved up by, times the width: 2^60. The six or seven bits that they have become the highest of 64.
const HIGHEST: usize = 1152921504606846976;

// The bit of the item that the header x names. Where x is not a free item's of class c, class and flags of the difference become the highest bits, so that the answer is far beyond every map: one comparison tells both.
fn next_bit<W: Width>(x: usize, c: usize) -> usize
    requires { c < (shape W.BYTES).classes }
    ensures { NextBit W.BYTES x c result }
{
    let y = wrapping_sub_usize(x, free_mark(c));
    offset_bit::<W>(next_in::<W>(y)) + class_and_flags::<W>(y) * (HIGHEST / W::BYTES)
}

// Counts down from before by the items on the list of class c, and tells what is left: refuses an item without a mark, and an item more than there are marks, so a ring too.
pub fn count_list<W: Width>(h: &[u8], m: &[u64], c: usize, before: usize) -> Option<usize>
    requires { ListRoom W.BYTES h.now m.now × (c < (shape W.BYTES).classes) }
    ensures { ListTold W.BYTES h.now (end_of (length h.now)) c (word_at W.BYTES h.now (head_at (shape W.BYTES) c)) m.now before result }
{
    let head = ItemOffset(W::word(h, head_at::<W>(c).0));
    if head.0 == 0 {
        return Some(before);
    }
    if head.0 % W::BYTES != 0 {
        return None;
    }
    let top = 64 * m.len();
    let mut n = before;
    let mut i = offset_bit::<W>(head);
    loop {
        if top <= i {
            return None;
        }
        if bits::test(m, i) == 0 {
            if i != 0 {
                return None;
            }
            return Some(n);
        }
        if n == 0 {
            return None;
        }
        n -= 1;
        i = next_bit::<W>(W::word(h, at_bit::<W>(i).0), c);
    }
}
