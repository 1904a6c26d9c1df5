// The lists of free items are linked anew: pages with most live items first, lower position first among equals, items rising within a page.
// A list is built from its end: what is to come first is pushed last.
#![tactic(auto)]

ghost use Rattle.std.specs.Prelude.{◌≡◌, true, ◌≤◌, ◌<◌, ◌^◌, length, take};
ghost use Rattle.model.specs.Shape.{shape};
ghost use Rattle.model.specs.Layout.{Layout};
ghost use Rattle.model.specs.inner.Laid.{Laid};
ghost use Rattle.relinking.specs.Relink.{live_room, entry_of, page_in, live_in, Roomy, NextLevel, EmptyBelow, PageReady, PagePushed, AtBlock, EntryTold, Ready, Gathered, LevelReady, LevelPushed, LevelsPushed, ClassReady, ClassLinked, LinkReady, Linked};

use model::{
    FEW_PAGES, ItemOffset, MORE_PAGES, MOST_PAGES, PAGE, Position, class_in, classes, end_of,
    first_item_at, free_header, head_at, item_size, items_in_page, kind_in, longest, offset_of,
    paged_bytes, size_in, start, used_in,
};
use reading::counting::page_at;
use words::Width;

// A page has fewer live items than this, so its position and they make one number: a table of these is half as long, and it is cleared at each sweep.
const LIVE_ROOM: usize = 4294967296;

fn entry_of(p: Position, live: usize) -> usize
    requires { (p.0 < 2 ^ 31) × (live < live_room) }
    ensures { result ≡ entry_of p.0 live }
{
    p.0 * LIVE_ROOM + live
}

fn page_in(e: usize) -> Position
    ensures { result.0 ≡ page_in e }
{
    Position(e / LIVE_ROOM)
}

fn live_in(e: usize) -> usize
    ensures { result ≡ live_in e }
{
    e % LIVE_ROOM
}

// The free items of the page of class c at p go to the head of their list, from the last to the first. The head itself is written at the end.
fn push_page<W: Width>(h: &mut [u8], p: Position, c: usize)
    requires { PageReady W.BYTES h.old p.0 c }
    ensures { PagePushed W.BYTES h.old p.0 c h.new }
{
    let size = item_size::<W>(c);
    let at = head_at::<W>(c);
    let first = first_item_at::<W>(p);
    let mut head = ItemOffset(W::word(h, at.0));
    let mut q = Position(first.0 + items_in_page::<W>(c) * size);
    // Down by the items' places, which are read and written: a reversed `step_by` would divide by the item's size.
    while first.0 < q.0 {
        q = Position(q.0 - size);
        if used_in(W::word(h, q.0)) == 0 {
            W::put_word(h, q.0, free_header(c, head));
            head = offset_of::<W>(q);
        }
    }
    W::put_word(h, at.0, head.0);
}

// The entry of the page of class c that the block at p, with tag t, is, or none. Other classes' pages are not counted.
fn entry_at<W: Width>(h: &[u8], p: Position, t: usize, c: usize) -> Option<usize>
    requires { AtBlock W.BYTES h.now p.0 t }
    ensures { EntryTold W.BYTES h.now p.0 c result }
{
    if kind_in(t) != PAGE {
        return None;
    }
    let first = first_item_at::<W>(p);
    if class_in::<W>(W::word(h, first.0)) != c {
        return None;
    }
    let page = page_at::<W>(h, p);
    Some(entry_of(p, page.held as usize))
}

// The entries of the pages of class c, rising, go to the table: how many.
fn gather<W: Width>(h: &[u8], c: usize, table: &mut [usize]) -> usize
    requires ready { Ready W.BYTES h.now }
    requires roomy { Roomy W.BYTES (length h.now) (length table.old) }
    ensures fits { result ≤ length table.new }
    ensures gathered { (L : Layout) → Laid W.BYTES h.now L → Gathered W.BYTES c L (take result table.new) }
{
    // No loop over `blocks`, which asks for a sound heap: while lists are linked anew this is only laid out.
    let end = end_of(h.len());
    let mut p = start::<W>();
    let mut m = 0;
    while p.0 < end.0 {
        let t = W::word(h, p.0);
        let next = Position(p.0 + size_in(t));
        if let Some(e) = entry_at::<W>(h, p, t, c) {
            table[m] = e;
            m += 1;
        }
        p = next;
    }
    m
}

// The free items of the pages with k live items, of those in the table, go to the head of their list, from the last to the first.
fn push_level<W: Width>(h: &mut [u8], c: usize, table: &[usize], k: usize)
    requires { LevelReady W.BYTES h.old c table.now }
    ensures { LevelPushed W.BYTES h.old c table.now k h.new }
{
    for i in (0..table.len()).rev() {
        let e = table[i];
        if live_in(e) == k {
            push_page::<W>(h, page_in(e), c);
        }
    }
}

// The least number of live items from k on that one of the table's pages has, below most; most where none has.
fn next_level(table: &[usize], k: usize, most: usize) -> usize
    requires { k ≤ most }
    ensures { NextLevel table.now k most result }
{
    let mut next = most;
    for e in table {
        let live = live_in(*e);
        if k <= live && live < next {
            next = live;
        }
    }
    next
}

// The free items of all pages in the table go to the head of their list: first those of pages with no live item, which so come last.
fn push_levels<W: Width>(h: &mut [u8], c: usize, table: &[usize])
    requires { LevelReady W.BYTES h.old c table.now }
    ensures { LevelsPushed W.BYTES h.old c table.now h.new }
{
    let most = items_in_page::<W>(c);
    // Pages with `most` live items have no free one. No range: most levels have no page, and are passed over.
    let mut k = next_level(table, 0, most);
    while k < most {
        push_level::<W>(h, c, table, k);
        k = next_level(table, k + 1, most);
    }
}

// The list of class c is linked anew: its head is set to 0, and its free items are put before that. What it named still follows, and is of no account.
fn link_class<W: Width>(h: &mut [u8], c: usize, table: &mut [usize])
    requires class_ready { ClassReady W.BYTES h.old c }
    requires roomy { Roomy W.BYTES (length h.old) (length table.old) }
    ensures { ClassLinked W.BYTES h.old c h.new }
{
    let m = gather::<W>(h, c, table);
    W::put_word(h, head_at::<W>(c).0, 0);
    push_levels::<W>(h, c, &table[..m]);
}

// The first class whose list is not empty; as many as there are classes where all are.
fn first_listed<W: Width>(h: &[u8]) -> usize
    requires { LinkReady W.BYTES h.now }
    ensures { EmptyBelow W.BYTES h.now result }
{
    for c in 0..classes::<W>() {
        if W::word(h, head_at::<W>(c).0) != 0 {
            return c;
        }
    }
    classes::<W>()
}

// The lists of class `from` and of those behind it are linked anew. One that is empty stays so: its class has no free item, and a walk over the blocks is spared.
fn link_classes<W: Width>(h: &mut [u8], from: usize, table: &mut [usize])
    requires link_ready { LinkReady W.BYTES h.old × EmptyBelow W.BYTES h.old from }
    requires roomy { Roomy W.BYTES (length h.old) (length table.old) }
    ensures { Linked W.BYTES h.old h.new }
{
    for c in from..classes::<W>() {
        let head = head_at::<W>(c);
        if W::word(h, head.0) != 0 {
            link_class::<W>(h, c, table);
        }
    }
}

// Whether a table of n entries is enough for a heap of so many bytes. Where it is for the longest one, nothing is left to ask of this one.
fn is_roomy<W: Width>(bytes: usize, n: usize) -> bool
    requires { (bytes ≤ (shape W.BYTES).most) × (n < 2 ^ 32) }
    ensures { (result ≡ true → Roomy W.BYTES bytes n) × (Roomy W.BYTES bytes n → result ≡ true) }
{
    longest::<W>() <= paged_bytes::<W>(n) || bytes <= paged_bytes::<W>(n)
}

// The same, with a table of N entries, which is cleared first.
fn link_with<W: Width, const N: usize>(h: &mut [u8], from: usize)
    requires link_ready { LinkReady W.BYTES h.old × EmptyBelow W.BYTES h.old from }
    requires roomy { Roomy W.BYTES (length h.old) N }
    requires small { N < 2 ^ 32 }
    ensures { Linked W.BYTES h.old h.new }
{
    let mut table = [0; N];
    link_classes::<W>(h, from, &mut table);
}

// Every class's list is linked anew. A table is made where there is a list, and as long as this heap needs.
pub fn link_anew<W: Width>(h: &mut [u8])
    requires { LinkReady W.BYTES h.old }
    ensures { Linked W.BYTES h.old h.new }
{
    let from = first_listed::<W>(h);
    if from == classes::<W>() {
        return;
    }
    if is_roomy::<W>(h.len(), FEW_PAGES) {
        link_with::<W, FEW_PAGES>(h, from)
    } else if is_roomy::<W>(h.len(), MORE_PAGES) {
        link_with::<W, MORE_PAGES>(h, from)
    } else {
        link_with::<W, MOST_PAGES>(h, from)
    }
}
