// The check of a heap: one walk over its blocks that marks the free items in a map of bits, and one pass over the item lists that counts the marked items.
#![tactic(auto)]

ghost use Rattle.std.specs.Prelude.{◌≡◌, [], ◌-◌, ◌/◌, ◌≤◌, length};
ghost use Rattle.model.specs.Shape.{shape, start, end_of};
ghost use Rattle.model.specs.Parts.{first_free_at};
ghost use Rattle.model.specs.Sound.{Sound};
ghost use Rattle.model.specs.Calls.{Lent};
ghost use Rattle.telling.specs.Tells.{Tells};
ghost use Rattle.marking.specs.Maps.{small_map, middle_map};
ghost use Rattle.marking.specs.Told.{MapSize};
ghost use Rattle.walking.specs.Told.{Halted};
ghost use Rattle.sound.specs.Told.{Fixed, Filled, FillTold};

use marking::map::map_end;
use model::{
    PAGE, Position, data_at, end_at, end_of, first_free_at, index, index_at, index_far_tag_at,
    index_tag, index_tag_at, kind_in, longest, magic, start,
};
use visiting::{count_lists, no_lists};
use walking::{Reached, Stand, mark_blocks, pass_blocks};
use words::bits::spread;
use words::{Eight, Width};

// The words of 64 bits of a map. It is cleared whole, so a check begins with none, takes a small one where it meets a page, and a larger one where it meets a page that reaches beyond it. The large one is enough for every heap.
const SMALL: usize = 32;

const MIDDLE: usize = 256;

const LARGE: usize = 2048;

// Whether blocks and lists are right, from a page on; or where the walk stands, if that is at a page that reaches beyond this map.
fn fill<W: Width>(h: &[u8], m: &mut [u64], from: Stand) -> Result<bool, Stand>
    requires { Halted W.BYTES h.now (end_of (length h.now)) from m.old × MapSize (length m.old) }
    ensures { FillTold W.BYTES h.now result m.new }
{
    match mark_blocks::<W>(h, m, from) {
        None => Ok(false),
        Some(Reached::Beyond(s)) => Err(s),
        Some(Reached::On(s)) => Ok(W::word(h, s.link.0) == 0 && count_lists::<W>(h, m, s.marks)),
    }
}

// The same with a large map, from where a walk has halted with a middle one. Each of the three sizes goes on in another way where its map ends: one function over the size would take that as a closure, and is no plainer.
fn is_filled_large<W: Width>(h: &[u8], smaller: &[u64], from: Stand) -> bool
    requires { Halted W.BYTES h.now (end_of (length h.now)) from smaller.now × (length smaller.now ≡ middle_map) × Lent (shape W.BYTES) h.now }
    ensures { Tells result (Filled W.BYTES h.now (end_of (length h.now))) }
{
    let mut m = [0u64; LARGE];
    spread(smaller, &mut m);
    match fill::<W>(h, &mut m, from) {
        Ok(b) => b,
        Err(_) => false,
    }
}

// With a middle map, from where it has halted with a small one. For every heap of the hand unit it is enough.
fn is_filled_middle<W: Width>(h: &[u8], smaller: &[u64], from: Stand) -> bool
    requires { Halted W.BYTES h.now (end_of (length h.now)) from smaller.now × (length smaller.now ≡ small_map) × Lent (shape W.BYTES) h.now }
    ensures { Tells result (Filled W.BYTES h.now (end_of (length h.now))) }
{
    let mut m = [0u64; MIDDLE];
    spread(smaller, &mut m);
    match fill::<W>(h, &mut m, from) {
        Ok(b) => b,
        Err(s) => map_end::<W>(MIDDLE).0 < longest::<W>() && is_filled_large::<W>(h, &m, s),
    }
}

// With a small map, from where it has halted with none.
fn is_filled_small<W: Width>(h: &[u8], from: Stand) -> bool
    requires { Halted W.BYTES h.now (end_of (length h.now)) from [] × Lent (shape W.BYTES) h.now }
    ensures { Tells result (Filled W.BYTES h.now (end_of (length h.now))) }
{
    let mut m = [0u64; SMALL];
    match fill::<W>(h, &mut m, from) {
        Ok(b) => b,
        Err(s) => is_filled_middle::<W>(h, &m, s),
    }
}

// Where a walk begins.
fn begin<W: Width>(end: Position) -> Stand
    requires { start (shape W.BYTES) ≤ end.0 }
    ensures { (result.at.0 ≡ start (shape W.BYTES)) × (result.left ≡ (end.0 - start (shape W.BYTES)) / 8) × (result.prev.0 ≡ 0) × (result.link.0 ≡ first_free_at (shape W.BYTES)) × (result.marks ≡ 0) }
{
    let at = start::<W>();
    Stand {
        at,
        left: (end.0 - at.0) / 8,
        prev: Position(0),
        link: first_free_at::<W>(),
        marks: 0,
    }
}

// Whether blocks and lists are right: without a map, up to the first page. Where that is the first block, at once with one: so the compiler keeps the maps out of the frame of a check that needs none.
fn is_filled<W: Width>(h: &[u8], end: Position) -> bool
    requires { Lent (shape W.BYTES) h.now × (end.0 ≡ end_of (length h.now)) × Fixed W.BYTES h.now end.0 }
    ensures { Tells result (Filled W.BYTES h.now end.0) }
{
    if kind_in(W::word(h, start::<W>().0)) == PAGE {
        return is_filled_small::<W>(h, begin::<W>(end));
    }
    let Some(s) = pass_blocks::<W>(h, begin::<W>(end)) else {
        return false;
    };
    if s.left != 0 {
        return is_filled_small::<W>(h, s);
    }
    W::word(h, s.link.0) == 0 && no_lists::<W>(h)
}

// Whether the fixed words are right, the magic number among them, which is one word of 8 bytes at every width.
fn is_fixed<W: Width>(h: &[u8], end: Position) -> bool
    requires { start (shape W.BYTES) ≤ length h.now }
    ensures { Tells result (Fixed W.BYTES h.now end.0) }
{
    if Eight::word(h, 0) != magic::<W>() {
        return false;
    }
    if W::word(h, data_at::<W>().0) != start::<W>().0 {
        return false;
    }
    if W::word(h, index_at::<W>().0) != index::<W>().0 {
        return false;
    }
    if W::word(h, end_at::<W>().0) != end.0 {
        return false;
    }
    if W::word(h, index_tag_at::<W>().0) != index_tag::<W>() {
        return false;
    }
    W::word(h, index_far_tag_at::<W>().0) == index_tag::<W>()
}

// Whether the heap is sound.
pub fn is_sound<W: Width>(h: &[u8]) -> bool
    requires { Lent (shape W.BYTES) h.now }
    ensures { Tells result (Sound (shape W.BYTES) h.now) }
{
    let end = end_of(h.len());
    if !is_fixed::<W>(h, end) {
        return false;
    }
    is_filled::<W>(h, end)
}
