// A heap in code, over the width of its words, document 01's of 8 bytes and the hand unit's of 4: the three ways of counting a place, and each part of a heap by name.
// What follows from the width is folded away, since a program names it.
#![tactic(auto)]

pub mod by_number;
pub mod refusals;

ghost use Rattle.std.specs.Prelude.{◌≡◌, true, ◌+◌, ◌*◌, ◌≤◌, ◌<◌, ◌^◌};
ghost use Rattle.model.specs.Shape.{shape, end_of, class_of, need_of, index, start, tags, least_free, shortest, least_variable, largest_item, item_size, item_capacity, item_shown, block_capacity, page_need, address_of, position_of, offset_of, item_at};
ghost use Rattle.model.specs.inner.Headers.{least_header, SameClass};
ghost use Rattle.model.specs.inner.Pages.{least_page};
ghost use Rattle.model.specs.Parts.{tag_of, size_in, kind_in, free_header, held_header, flags_in, used_in, asked_in, free_mark, class_and_flags, class_in, next_in, data_at, index_at, first_free_at, end_at, index_tag, index_tag_at, index_far_tag_at, head_at, far_tag_at, next_at, previous_at, first_item_at};

pub use refusals::Refusal;
use words::{Eight, Four, Width};

// A place counted in bytes from the start of the buffer. Places are compared by their numbers: a derived `<` is a call to a proof, and of `reading::starts`, tried so, all 7 goals fell open.
#[derive(Clone, Copy)]
pub struct Position(pub usize);
// The position of a payload's first byte.
#[derive(Clone, Copy)]
pub struct Address(pub usize);
// A place counted in bytes from the index page.
#[derive(Clone, Copy)]
pub struct ItemOffset(pub usize);

// What a block is, as the low three bits of its tag say. Five of their eight values name no kind, and the check meets them all: an enum would be a ninth case at each `match`.
pub const FREE: usize = 0;

pub const VARIABLE: usize = 2;

pub const PAGE: usize = 3;

// What an item is, as the flags of its header say, two bits: free, or in use. Two of their four values name neither.
pub const IDLE: usize = 1;

pub const HELD: usize = 3;

// The address of the payload behind the tag or header at p.
pub fn address_of<W: Width>(p: Position) -> Address
    requires { p.0 < 2 ^ 63 }
    ensures { result.0 ≡ address_of (shape W.BYTES) p.0 }
{
    Address(p.0 + W::BYTES)
}

// The position of the tag or header before the payload at a.
pub fn position_of<W: Width>(a: Address) -> Position
    requires { W.BYTES ≤ a.0 }
    ensures { result.0 ≡ position_of (shape W.BYTES) a.0 }
{
    by_number::position_of(W::BYTES, a)
}

// The item offset of the item whose header stands at p.
pub fn offset_of<W: Width>(p: Position) -> ItemOffset
    requires { index (shape W.BYTES) ≤ p.0 }
    ensures { result.0 ≡ offset_of (shape W.BYTES) p.0 }
{
    ItemOffset(p.0 - index::<W>().0)
}

// The position of the header of the item with offset o.
pub fn item_at<W: Width>(o: ItemOffset) -> Position
    requires { o.0 < 2 ^ 63 }
    ensures { result.0 ≡ item_at (shape W.BYTES) o.0 }
{
    Position(index::<W>().0 + o.0)
}

// The bytes of a word of document 01's heap, and of the hand unit's. What else differs is told by a comparison with these, as `shape` in the definitions does.
pub const WIDE: usize = 8;

pub const HAND: usize = 4;

// Their widths: what a program gives to say which heap it has.
pub type Wide = Eight;

pub type Hand = Four;

// A heap of either width begins with eight bytes; as one word of eight bytes they are its magic number.
pub const MAGIC_BYTES: usize = 8;

pub fn magic<W: Width>() -> usize
    ensures { result ≡ (shape W.BYTES).magic }
{
    by_number::magic(W::BYTES)
}

// The shortest and the longest heap; the largest size that can be asked for is the same as the latter.
pub fn shortest<W: Width>() -> usize
    ensures { result ≡ shortest (shape W.BYTES) }
{
    start::<W>().0 + least_free::<W>()
}

// The bytes of the longest heap that there is: an array's length is a constant.
pub const MOST_BYTES: usize = 1048576;

pub fn longest<W: Width>() -> usize
    ensures { result ≡ (shape W.BYTES).most }
{
    by_number::longest(W::BYTES)
}

// How many pages a table has entries for: an array's length is a constant. Every heap has fewer than the last has; at 8 bytes a word the second is enough too.
pub const FEW_PAGES: usize = 16;

pub const MORE_PAGES: usize = 256;

pub const MOST_PAGES: usize = 2048;

// The bytes that n pages take at least.
pub fn paged_bytes<W: Width>(n: usize) -> usize
    requires { n < 2 ^ 32 }
    ensures { result ≡ n * least_page W.BYTES }
{
    by_number::paged_bytes(W::BYTES, n)
}

// Whether a heap may end before its buffer does, and grow; the furthest end in a buffer of n bytes.
pub fn grows<W: Width>() -> bool
    ensures { result ≡ (shape W.BYTES).grows }
{
    by_number::grows(W::BYTES)
}

pub fn end_of(n: usize) -> Position
    ensures { result.0 ≡ end_of n }
{
    Position(n / 8 * 8)
}

// The heap's header: where it names the data area, the index page, the first free block and the end.
pub fn data_at<W: Width>() -> Position
    ensures { result.0 ≡ data_at (shape W.BYTES) }
{
    by_number::data_at(W::BYTES)
}

pub fn index_at<W: Width>() -> Position
    ensures { result.0 ≡ index_at (shape W.BYTES) }
{
    Position(8 + W::BYTES)
}

pub fn first_free_at<W: Width>() -> Position
    ensures { result.0 ≡ first_free_at (shape W.BYTES) }
{
    Position(8 + 2 * W::BYTES)
}

pub fn end_at<W: Width>() -> Position
    ensures { result.0 ≡ end_at (shape W.BYTES) }
{
    Position(8 + 3 * W::BYTES)
}

// The tag of the index page's block, and where it stands before and behind that page.
pub fn index_tag<W: Width>() -> usize
    ensures { result ≡ index_tag (shape W.BYTES) }
{
    4 * W::BYTES * W::BYTES + 2 * W::BYTES + PAGE
}

pub fn index_tag_at<W: Width>() -> Position
    ensures { result.0 ≡ index_tag_at (shape W.BYTES) }
{
    Position(8 + 4 * W::BYTES)
}

pub fn index_far_tag_at<W: Width>() -> Position
    ensures { result.0 ≡ index_far_tag_at (shape W.BYTES) }
{
    Position(start::<W>().0 - W::BYTES)
}

// Where the index page begins; where the data area begins.
pub fn index<W: Width>() -> Position
    ensures { result.0 ≡ index (shape W.BYTES) }
{
    Position(8 + 5 * W::BYTES)
}

pub fn start<W: Width>() -> Position
    ensures { result.0 ≡ start (shape W.BYTES) }
{
    Position(8 + 6 * W::BYTES + 4 * W::BYTES * W::BYTES)
}

// The classes of the heap that has the most: an array's length is a constant.
pub const MOST_CLASSES: usize = 32;

// How many classes there are; how many of them, the lowest, are handed out; where the list of class c begins, in the index page.
pub fn classes<W: Width>() -> usize
    ensures { result ≡ (shape W.BYTES).classes }
{
    4 * W::BYTES
}

pub fn offered<W: Width>() -> usize
    ensures { result ≡ (shape W.BYTES).offered }
{
    by_number::offered(W::BYTES)
}

pub fn head_at<W: Width>(c: usize) -> Position
    requires { c < (shape W.BYTES).classes }
    ensures { (result.0 ≡ head_at (shape W.BYTES) c) × (result.0 + W.BYTES ≤ start (shape W.BYTES)) }
{
    Position(8 + 5 * W::BYTES + W::BYTES * c)
}

// A tag: a block's size plus its kind; and what a tag says.
pub fn tag_of(s: usize, kind: usize) -> usize
    requires { s + kind < 2 ^ 64 }
    ensures { result ≡ tag_of s kind }
{
    s + kind
}

pub fn size_in(t: usize) -> usize
    ensures { result ≡ size_in t }
{
    t / 8 * 8
}

pub fn kind_in(t: usize) -> usize
    ensures { result ≡ kind_in t }
{
    t % 8
}

// Of a block of size s at p: where its far tag stands; of a free one, where its links to the next and to the previous free block do; of a page, its first item.
pub fn far_tag_at<W: Width>(p: Position, s: usize) -> Position
    requires { (W.BYTES ≤ p.0 + s) × (p.0 + s < 2 ^ 64) }
    ensures { result.0 ≡ far_tag_at (shape W.BYTES) p.0 s }
{
    by_number::far_tag_at(W::BYTES, p, s)
}

pub fn next_at<W: Width>(p: Position) -> Position
    requires { p.0 + W.BYTES < 2 ^ 64 }
    ensures { result.0 ≡ next_at (shape W.BYTES) p.0 }
{
    by_number::next_at(W::BYTES, p)
}

pub fn previous_at<W: Width>(p: Position, s: usize) -> Position
    requires { (tags (shape W.BYTES) ≤ p.0 + s) × (p.0 + s < 2 ^ 64) }
    ensures { result.0 ≡ previous_at (shape W.BYTES) p.0 s }
{
    Position(p.0 + s - 2 * W::BYTES)
}

pub fn first_item_at<W: Width>(p: Position) -> Position
    requires { p.0 + W.BYTES < 2 ^ 64 }
    ensures { result.0 ≡ first_item_at (shape W.BYTES) p.0 }
{
    by_number::first_item_at(W::BYTES, p)
}

// The least free block, and the least remainder that stays free; the least variable block; the largest item that is handed out.
pub fn least_free<W: Width>() -> usize
    ensures { result ≡ least_free (shape W.BYTES) }
{
    4 * W::BYTES
}

pub fn least_variable<W: Width>() -> usize
    ensures { result ≡ least_variable (shape W.BYTES) }
{
    largest_item::<W>() + 8 + 2 * W::BYTES
}

pub fn largest_item<W: Width>() -> usize
    ensures { result ≡ largest_item (shape W.BYTES) }
{
    8 * offered::<W>()
}

// What a variable block of size s holds; the whole size of a block for n bytes, a size above the largest item that is handed out.
pub fn block_capacity<W: Width>(s: usize) -> usize
    requires { tags (shape W.BYTES) ≤ s }
    ensures { result ≡ block_capacity (shape W.BYTES) s }
{
    s - 2 * W::BYTES
}

pub fn need_of<W: Width>(n: usize) -> usize
    requires { n < 2 ^ 63 }
    ensures { result ≡ need_of (shape W.BYTES) n }
{
    (n + 7) / 8 * 8 + 2 * W::BYTES
}

// The class of a size.
pub fn class_of(n: usize) -> usize
    requires { 1 ≤ n }
    ensures { result ≡ class_of n }
{
    (n - 1) / 8
}

// What an item of class c takes, with its header; what it holds; how much of that is shown where n bytes were asked for.
pub fn item_size<W: Width>(c: usize) -> usize
    requires { c < (shape W.BYTES).classes }
    ensures { result ≡ item_size (shape W.BYTES) c }
{
    item_capacity::<W>(c) + W::BYTES
}

pub fn item_capacity<W: Width>(c: usize) -> usize
    requires { c < (shape W.BYTES).classes }
    ensures { result ≡ item_capacity (shape W.BYTES) c }
{
    8 * c + 8
}

pub fn item_shown<W: Width>(c: usize, n: usize) -> usize
    requires { c < (shape W.BYTES).classes }
    ensures { result ≡ item_shown (shape W.BYTES) c n }
{
    if n == 0 { item_capacity::<W>(c) } else { n }
}

// The page sizes of document 01's heap, printed for whoever reads the listing: how many items a page has, its class, and what an item takes with its header.
const PAGE_ITEMS: [u16; MOST_CLASSES] = [
    257, // class  0, items of  16 bytes
    171, // class  1, items of  24 bytes
    129, // class  2, items of  32 bytes
    103, // class  3, items of  40 bytes
    86, //  class  4, items of  48 bytes
    74, //  class  5, items of  56 bytes
    65, //  class  6, items of  64 bytes
    57, //  class  7, items of  72 bytes
    52, //  class  8, items of  80 bytes
    47, //  class  9, items of  88 bytes
    43, //  class 10, items of  96 bytes
    40, //  class 11, items of 104 bytes
    37, //  class 12, items of 112 bytes
    35, //  class 13, items of 120 bytes
    33, //  class 14, items of 128 bytes
    31, //  class 15, items of 136 bytes
    29, //  class 16, items of 144 bytes
    27, //  class 17, items of 152 bytes
    26, //  class 18, items of 160 bytes
    25, //  class 19, items of 168 bytes
    24, //  class 20, items of 176 bytes
    23, //  class 21, items of 184 bytes
    22, //  class 22, items of 192 bytes
    21, //  class 23, items of 200 bytes
    20, //  class 24, items of 208 bytes
    19, //  class 25, items of 216 bytes
    19, //  class 26, items of 224 bytes
    18, //  class 27, items of 232 bytes
    18, //  class 28, items of 240 bytes
    17, //  class 29, items of 248 bytes
    17, //  class 30, items of 256 bytes
    16, //  class 31, items of 264 bytes
];

// The items of a page of class c. No other place works this out.
pub fn items_in_page<W: Width>(c: usize) -> usize
    requires { c < (shape W.BYTES).classes }
    ensures { result ≡ (shape W.BYTES).per_page c }
{
    if W::BYTES == WIDE {
        PAGE_ITEMS[c] as usize
    } else {
        2
    }
}

// The least size of a page of class c, of the n items that the table says: who needs both reads the table once.
pub fn page_need<W: Width>(c: usize, n: usize) -> usize
    requires { (c < (shape W.BYTES).classes) × (n ≡ (shape W.BYTES).per_page c) }
    ensures { result ≡ page_need (shape W.BYTES) c }
{
    2 * W::BYTES + n * item_size::<W>(c)
}

// The header of a free item of class c with the item at `next` after it on its list; its class and flags alone; and the header of an item in use for n bytes.
pub fn free_header(c: usize, next: ItemOffset) -> usize
    requires { free_header c next.0 < 2 ^ 64 }
    ensures { result ≡ free_header c next.0 }
{
    16 * next.0 + 4 * c + 1
}

pub fn free_mark(c: usize) -> usize
    requires { c < 2 ^ 32 }
    ensures { result ≡ free_mark c }
{
    4 * c + 1
}

pub fn held_header(c: usize, n: usize) -> usize
    requires { (c < 2 ^ 32) × (n < 2 ^ 32) }
    ensures { result ≡ held_header c n }
{
    128 * n + 4 * c + 3
}

// The header of an item in use for the least size of class c; and whether a header that is d above it is of a size of the same class. The differences of many headers may be or-ed first.
pub fn least_header(c: usize) -> usize
    requires { c < 2 ^ 16 }
    ensures { result ≡ least_header c }
{
    held_header(c, 8 * c + 1)
}

pub fn same_class(d: usize) -> bool
    ensures { (result ≡ true → SameClass d) × (SameClass d → result ≡ true) }
{
    d % 128 + d / 1024 == 0
}

// What the header x of an item says: its class and its flags in one, its class, and the item after it on its list.
pub fn class_and_flags<W: Width>(x: usize) -> usize
    ensures { result ≡ class_and_flags (shape W.BYTES) x }
{
    x % (16 * W::BYTES)
}

pub fn class_in<W: Width>(x: usize) -> usize
    ensures { (result ≡ class_in (shape W.BYTES) x) × (result < (shape W.BYTES).classes) }
{
    class_and_flags::<W>(x) / 4
}

pub fn next_in<W: Width>(x: usize) -> ItemOffset
    ensures { result.0 ≡ next_in (shape W.BYTES) x }
{
    ItemOffset(x / (16 * W::BYTES) * W::BYTES)
}

// Its flags, and 1 where they are those of an item in use, 0 of a free one; and of one in use the size that was asked for.
pub fn flags_in(x: usize) -> usize
    ensures { result ≡ flags_in x }
{
    x % 4
}

pub fn used_in(x: usize) -> usize
    ensures { result ≡ used_in x }
{
    x % 4 / 2
}

pub fn asked_in(x: usize) -> usize
    ensures { result ≡ asked_in x }
{
    x / 128
}
