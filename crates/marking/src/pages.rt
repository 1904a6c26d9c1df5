// The pages of a heap: the free items of each are marked.
ghost use Rattle.std.specs.Prelude.{◌≡◌, ◌^◌, ◌<◌, true};
ghost use Rattle.model.specs.inner.Headers.{SameClass};
ghost use Rattle.marking.specs.Uses.{Right, PageRight};
ghost use Rattle.marking.specs.Told.{MarkRoom, ItemsTold, PageItems, RightTold, Judged, PageRoom, PageTold};

use crate::map::{at_bit, offset_bit};
use model::{
    IDLE, Position, class_and_flags, class_in, first_item_at, flags_in, free_mark, held_header,
    item_size, items_in_page, least_free, least_header, offset_of, page_need, same_class,
};
use std::num::{wrapping_add_u32, wrapping_sub_usize};
use words::{Width, bits};

// What the items of a page come to: the marks that there are then; how those marked differ from a free one's header in class and flags, and those in use from the header for the least size of their class, all differences or-ed.
#[derive(Clone, Copy)]
struct Tally {
    pub marks: usize,
    pub wrong: usize,
    pub above: usize,
}

// Marks the free items among a page's items of class c, from bit `first` to bit `stop`, where there are n marks before: all whose flags do not say that they are in use.
fn mark_items<W: Width>(
    h: &[u8],
    m: &mut [u64],
    first: usize,
    stop: usize,
    c: usize,
    n: usize,
) -> Tally
    requires { MarkRoom W.BYTES h.now m.old first stop c n }
    ensures { ItemsTold W.BYTES h.now m.old first stop c result m.new }
{
    let step = (item_size::<W>(c) / W::BYTES) as u32;
    let mut marks = n;
    let mut wrong = 0;
    let mut above = 0;
    let mut i = first;
    // Every page has an item: the first is not asked for. So no range, which asks first.
    loop {
        let x = W::word(h, at_bit::<W>(i).0);
        if flags_in(x) <= IDLE {
            bits::mark(m, i);
            marks += 1;
            wrong |= wrapping_sub_usize(x, free_mark(c));
        } else {
            above |= wrapping_sub_usize(x, least_header(c));
        }
        // A sum of 32 bits keeps the compiler from counting the place beside the bit.
        i = wrapping_add_u32(i as u32, step) as usize;
        if stop <= i {
            break;
        }
    }
    Tally {
        marks,
        wrong,
        above,
    }
}

// Whether the header x of an item of class c is right where it is in use: the size that was asked for is not known, or one of that class.
fn is_right(c: usize, x: usize) -> bool
    requires { c < 2 ^ 8 }
    ensures { (result ≡ true → Right c x) × (Right c x → result ≡ true) }
{
    flags_in(x) <= IDLE
        || x == held_header(c, 0)
        || same_class(wrapping_sub_usize(x, least_header(c)))
}

// Whether that is so of each item of the page at p.
fn are_right<W: Width>(h: &[u8], p: Position) -> bool
    requires { PageItems W.BYTES h.now p.0 }
    ensures { RightTold W.BYTES h.now p.0 result }
{
    let mut q = first_item_at::<W>(p);
    let c = class_in::<W>(W::word(h, q.0));
    let size = item_size::<W>(c);
    for _ in 0..items_in_page::<W>(c) {
        if !is_right(c, W::word(h, q.0)) {
            return false;
        }
        q = Position(q.0 + size);
    }
    true
}

// What a tally says of the page at p: how many marks there are, or nothing where the page is not right. Its items in use are looked at one by one only where the sizes of some are not known, or wrong.
fn judge<W: Width>(h: &[u8], p: Position, t: Tally) -> Option<usize>
    requires { PageItems W.BYTES h.now p.0 × (SameClass t.above → PageRight W.BYTES h.now p.0) }
    ensures { Judged W.BYTES h.now p.0 t result }
{
    if class_and_flags::<W>(t.wrong) != 0 {
        return None;
    }
    if same_class(t.above) || are_right::<W>(h, p) {
        return Some(t.marks);
    }
    None
}

// Marks the free items of a page of size s at p and tells how many marks there are then, or nothing where the page is not right. It is of the class that its first header says. What it has to spare is less than the least free block; where it is too short, the difference is more than any heap has.
pub fn mark_page<W: Width>(
    h: &[u8],
    m: &mut [u64],
    p: Position,
    s: usize,
    before: usize,
) -> Option<usize>
    requires { PageRoom W.BYTES h.now m.old p.0 s before }
    ensures { PageTold W.BYTES h.now m.old p.0 s result m.new }
{
    if s < least_free::<W>() {
        return None;
    }
    let first = first_item_at::<W>(p);
    let c = class_in::<W>(W::word(h, first.0));
    let items = items_in_page::<W>(c);
    let need = page_need::<W>(c, items);
    if least_free::<W>() <= wrapping_sub_usize(s, need) {
        return None;
    }
    let i = offset_bit::<W>(offset_of::<W>(first));
    let stop = i + items * item_size::<W>(c) / W::BYTES;
    let t = mark_items::<W>(h, m, i, stop, c, before);
    judge::<W>(h, p, t)
}
