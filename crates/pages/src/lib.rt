// Pages of items.
#![tactic(auto)]

ghost use Rattle.std.specs.Prelude.{◌≡◌, length};
ghost use Rattle.model.specs.Shape.{shape, page_need};
ghost use Rattle.model.specs.Picture.{draw};
ghost use Rattle.model.specs.inner.Links.{item_words};
ghost use Rattle.model.specs.inner.Walks.{Spotted};
ghost use Rattle.pages.specs.Pages.{ItemsRoom, NoItem, MadePage};

use model::{
    ItemOffset, PAGE, Position, first_item_at, free_header, free_mark, head_at, item_size,
    offset_of, page_need,
};
use placing::{put_high, put_low, read, taken};
use words::Width;

// The headers of a page's n items of class c from p on, all free, each linked to the next. They are written from the last one down, so that `left`, the bytes before the last item written, is also where the next one ends: a range would count the items besides.
fn link_items<W: Width>(h: &mut [u8], c: usize, n: usize, p: Position)
    requires { ItemsRoom W.BYTES (length h.old) c n p.0 }
    ensures { h.new ≡ draw W.BYTES (item_words (shape W.BYTES) c p.0 ((shape W.BYTES).per_page c)) h.old }
{
    let size = item_size::<W>(c);
    // A header names an item that is one size further on than the one before it names.
    let step = free_header(c, ItemOffset(size)) - free_mark(c);
    let mut left = (n - 1) * size;
    let last = Position(p.0 + left);
    let mut header = free_header(c, offset_of::<W>(last));
    W::put_word(h, last.0, free_mark(c));
    while left != 0 {
        W::put_word(h, p.0 + left - size, header);
        header -= step;
        left -= size;
    }
}

// A page of class c, whose list is empty, is made of the free block at p, with its n items.
pub fn make<W: Width>(h: &mut [u8], p: Position, c: usize, n: usize)
    requires spotted { Spotted (shape W.BYTES) h.old p.0 (page_need (shape W.BYTES) c) }
    requires no_item { NoItem W.BYTES h.old c }
    requires n_value { n ≡ (shape W.BYTES).per_page c }
    ensures { MadePage W.BYTES h.old p.0 c h.new }
{
    let first = first_item_at::<W>(p);
    W::put_word(h, head_at::<W>(c).0, offset_of::<W>(first).0);
    let g = read::<W>(h, p);
    let u = taken::<W>(page_need::<W>(c, n), g.size);
    put_low::<W>(h, g, u, PAGE);
    link_items::<W>(h, c, n, first);
    put_high::<W>(h, g, u, PAGE);
}
