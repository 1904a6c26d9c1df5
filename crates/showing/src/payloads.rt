// The live payloads, of variable blocks and of items in use, a line each.
ghost use Rattle.std.specs.Prelude.{◌+◌, ◌*◌, ◌≤◌, ◌<◌, length};
ghost use Rattle.model.specs.Shape.{shape, item_size};
ghost use Rattle.reading.specs.Stepping.{BlockRead};

use model::{
    Address, HELD, Position, address_of, asked_in, block_capacity, first_item_at, flags_in,
    item_capacity, item_shown, item_size, items_in_page,
};
use reading::heap::SoundHeap;
use reading::stepping::{Kind, MetBlock};
use std::io;
use std::io::Write;
use words::Width;

// A payload's line.
fn write_payload<O: Write>(
    out: &mut O,
    a: Address,
    capacity: usize,
    shown: usize,
) -> io::Result<()> {
    writeln!(out, "{} {capacity} {shown}", a.0)
}

// The payload of the item of class c with its header at q, where it is in use.
fn write_item<W: Width, O: Write>(out: &mut O, h: &[u8], q: Position, c: usize) -> io::Result<()>
    requires { (c < (shape W.BYTES).classes) × (q.0 + W.BYTES ≤ length h.now) }
{
    let x = W::word(h, q.0);
    if flags_in(x) != HELD {
        return Ok(());
    }
    let shown = item_shown::<W>(c, asked_in(x));
    write_payload(out, address_of::<W>(q), item_capacity::<W>(c), shown)
}

// The payloads of a page's items in use, of class c with their headers from `first` on.
fn write_items<W: Width, O: Write>(
    out: &mut O,
    h: &[u8],
    first: Position,
    c: usize,
) -> io::Result<()>
    requires { (c < (shape W.BYTES).classes) × (first.0 + (shape W.BYTES).per_page c * item_size (shape W.BYTES) c ≤ length h.now) }
{
    let size = item_size::<W>(c);
    let mut q = first;
    for _ in 0..items_in_page::<W>(c) {
        write_item::<W, O>(out, h, q, c)?;
        q = Position(q.0 + size);
    }
    Ok(())
}

// The payloads of a block.
fn write_held<W: Width, O: Write>(out: &mut O, h: &[u8], b: MetBlock) -> io::Result<()>
    requires { BlockRead W.BYTES h.now b.position.0 b }
{
    match b.kind {
        Kind::Variable => {
            let capacity = block_capacity::<W>(b.size);
            write_payload(out, address_of::<W>(b.position), capacity, capacity)
        }
        Kind::Page { class } => write_items::<W, O>(out, h, first_item_at::<W>(b.position), class),
        Kind::Free { .. } => Ok(()),
    }
}

// Every live payload, in rising order.
pub fn write_payloads<W: Width, O: Write>(out: &mut O, heap: &SoundHeap<'_, W>) -> io::Result<()> {
    writeln!(out, "\nlive payloads: address, capacity, shown")?;
    for block in heap.blocks() {
        write_held::<W, O>(out, heap.bytes, block)?;
    }
    Ok(())
}
