// Allocate, once the heap is known to be sound and the size to be good.
ghost use Rattle.std.specs.Prelude.{length};
ghost use Rattle.placing.specs.Blocks.{Needed};
ghost use Rattle.engine.specs.Allocate.{ReadyClass, Asked, GivesItem, GivesBlock, GivesSize};
ghost use Rattle.engine.specs.Ready.{Ready};

use model::{
    Address, address_of, class_of, head_at, items_in_page, largest_item, need_of, page_need,
};
use words::Width;

// An item of class c for n bytes: the first on its list, or of a new page where the list is empty.
fn an_item<W: Width>(h: &mut [u8], c: usize, n: usize) -> Option<Address>
    requires { ReadyClass W.BYTES h.old c n }
    ensures { GivesItem W.BYTES h.old c n result h.new }
{
    if W::word(h, head_at::<W>(c).0) != 0 {
        return Some(items::take::<W>(h, c, n));
    }
    let count = items_in_page::<W>(c);
    let p = fitting::find_fit::<W>(h, page_need::<W>(c, count))?;
    pages::make::<W>(h, p, c, count);
    Some(items::take::<W>(h, c, n))
}

// A variable block of size need.
fn a_block<W: Width>(h: &mut [u8], need: usize) -> Option<Address>
    requires ready { Ready W.BYTES h.old }
    requires needed { Needed W.BYTES (length h.old) need }
    ensures { GivesBlock W.BYTES h.old need result h.new }
{
    let p = fitting::find_fit::<W>(h, need)?;
    placing::take::<W>(h, p, need);
    Some(address_of::<W>(p))
}

// Allocates n bytes: the address of their payload, if there is room.
pub fn allocate<W: Width>(h: &mut [u8], n: usize) -> Option<Address>
    requires ready { Ready W.BYTES h.old }
    requires asked { Asked W.BYTES n }
    ensures { GivesSize W.BYTES h.old n result h.new }
{
    if n <= largest_item::<W>() {
        return an_item::<W>(h, class_of(n), n);
    }
    a_block::<W>(h, need_of::<W>(n))
}
