// A fresh heap: the fixed words, no item on any list, and one free block from the data area's start to the end.
#![tactic(auto)]

ghost use Rattle.std.specs.Prelude.{◌≡◌, ◌≤◌, length, replicate, []};
ghost use Rattle.words.specs.Word.{put};
ghost use Rattle.model.specs.Shape.{shape, index, shortest, end_of};
ghost use Rattle.model.specs.Parts.{magic_bytes};
ghost use Rattle.model.specs.Picture.{draw};
ghost use Rattle.model.specs.Layout.{head_words};
ghost use Rattle.model.specs.Rules.{fresh};
ghost use Rattle.model.specs.Calls.{Lent, drawn};
ghost use Rattle.fresh.specs.Fresh.{EndRoom, before_heads, after_heads};

use links::put_free;
use model::{
    Position, classes, data_at, end_at, end_of, first_free_at, head_at, index, index_at,
    index_far_tag_at, index_tag, index_tag_at, magic, start,
};
use words::{Eight, Width};

// The header's words, up to the index page. The magic number has eight bytes at every width.
fn write_header<W: Width>(h: &mut [u8], end: Position)
    requires { shortest (shape W.BYTES) ≤ length h.old }
    ensures { h.new ≡ draw W.BYTES (before_heads W.BYTES end.0) (put magic_bytes h.old 0 (shape W.BYTES).magic) }
{
    let data = start::<W>();
    Eight::put_word(h, 0, magic::<W>());
    W::put_word(h, data_at::<W>().0, data.0);
    W::put_word(h, index_at::<W>().0, index::<W>().0);
    W::put_word(h, first_free_at::<W>().0, data.0);
    W::put_word(h, end_at::<W>().0, end.0);
    W::put_word(h, index_tag_at::<W>().0, index_tag::<W>());
}

// The index page: every list is empty.
fn write_heads<W: Width>(h: &mut [u8])
    requires { shortest (shape W.BYTES) ≤ length h.old }
    ensures { h.new ≡ draw W.BYTES (head_words (shape W.BYTES) (index (shape W.BYTES)) (replicate (shape W.BYTES).classes [])) h.old }
{
    for c in 0..classes::<W>() {
        W::put_word(h, head_at::<W>(c).0, 0);
    }
}

// The index page's far tag, and the one free block.
fn write_block<W: Width>(h: &mut [u8], end: Position)
    requires { EndRoom W.BYTES (length h.old) end.0 }
    ensures { h.new ≡ draw W.BYTES (after_heads W.BYTES end.0) h.old }
{
    let data = start::<W>();
    W::put_word(h, index_far_tag_at::<W>().0, index_tag::<W>());
    put_free::<W>(h, data, end.0 - data.0, Position(0), Position(0));
}

// Opens a heap over any bytes.
pub fn lay<W: Width>(h: &mut [u8])
    requires { Lent (shape W.BYTES) h.old }
    ensures { h.new ≡ drawn (shape W.BYTES) (fresh (shape W.BYTES) (end_of (length h.old))) (put magic_bytes h.old 0 (shape W.BYTES).magic) }
{
    let end = end_of(h.len());
    write_header::<W>(h, end);
    write_heads::<W>(h);
    write_block::<W>(h, end);
}
