// Items: the first of a class's list is taken, an item goes to the head of its list, and one in use is for another size from now on.
#![tactic(auto)]

ghost use Rattle.std.specs.Prelude.{◌≡◌};
ghost use Rattle.model.specs.Shape.{class_of};
ghost use Rattle.items.specs.Items.{HasItem, TookItem, ItemIn, GaveItem, ItemLive, RenewedItem};

use model::{
    Address, ItemOffset, Position, address_of, free_header, head_at, held_header, item_at, next_in,
    offset_of,
};
use words::Width;

// The first item on the list of class c is taken for n bytes: its address.
pub fn take<W: Width>(h: &mut [u8], c: usize, n: usize) -> Address
    requires { HasItem W.BYTES h.old c n }
    ensures { TookItem W.BYTES h.old c n result.0 h.new }
{
    let head = head_at::<W>(c);
    let o = ItemOffset(W::word(h, head.0));
    let q = item_at::<W>(o);
    let next = next_in::<W>(W::word(h, q.0));
    W::put_word(h, head.0, next.0);
    W::put_word(h, q.0, held_header(c, n));
    address_of::<W>(q)
}

// The item whose header stands at q, of class c, goes to the head of its list. It may be free: a sweep links lists anew.
pub fn give<W: Width>(h: &mut [u8], q: Position, c: usize)
    requires { ItemIn W.BYTES h.old q.0 c }
    ensures { GaveItem W.BYTES h.old q.0 c h.new }
{
    let head = head_at::<W>(c);
    let first = ItemOffset(W::word(h, head.0));
    W::put_word(h, head.0, offset_of::<W>(q).0);
    W::put_word(h, q.0, free_header(c, first));
}

// The item in use whose header stands at q, of class c, is for n bytes of its class from now on.
pub fn renew<W: Width>(h: &mut [u8], q: Position, c: usize, n: usize)
    requires item_live { ItemLive W.BYTES h.old q.0 c }
    requires n_value { class_of n ≡ c }
    ensures { RenewedItem W.BYTES h.old q.0 c n h.new }
{
    let header = held_header(c, n);
    W::put_word(h, q.0, header);
}
