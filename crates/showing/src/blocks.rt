// The blocks, a line each.
ghost use Rattle.reading.specs.Counting.{AtPage};
ghost use Rattle.reading.specs.Stepping.{BlockRead};

use model::Position;
use reading::counting::page_at;
use reading::heap::SoundHeap;
use reading::stepping::{Kind, MetBlock};
use std::io;
use std::io::Write;
use words::Width;

// What a free block's line says of it: its neighbours on the free list.
fn write_free<O: Write>(out: &mut O, next: Position, previous: Position) -> io::Result<()> {
    writeln!(out, "free, next {}, previous {}", next.0, previous.0)
}

// What a page's line says of it: the page at p, of class c.
fn write_page<W: Width, O: Write>(out: &mut O, h: &[u8], p: Position, c: usize) -> io::Result<()>
    requires { AtPage W.BYTES h.now p.0 }
{
    let page = page_at::<W>(h, p);
    let held = page.held;
    let idle = page.idle;
    writeln!(out, "page, class {c}, live items {held}, free items {idle}")
}

// A block's line.
fn write_block<W: Width, O: Write>(out: &mut O, h: &[u8], b: MetBlock) -> io::Result<()>
    requires { BlockRead W.BYTES h.now b.position.0 b }
{
    write!(out, "{} {} ", b.position.0, b.size)?;
    match b.kind {
        Kind::Free { next, previous } => write_free(out, next, previous),
        Kind::Variable => writeln!(out, "variable"),
        Kind::Page { class } => write_page::<W, O>(out, h, b.position, class),
    }
}

// Every block, in rising order.
pub fn write_blocks<W: Width, O: Write>(out: &mut O, heap: &SoundHeap<'_, W>) -> io::Result<()> {
    writeln!(out, "\nblocks: position, size, what it is")?;
    for block in heap.blocks() {
        write_block::<W, O>(out, heap.bytes, block)?;
    }
    Ok(())
}
