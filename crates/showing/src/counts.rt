// The statistics and the table of classes.
ghost use Rattle.std.specs.Prelude.{◌<◌};
ghost use Rattle.model.specs.Shape.{shape};

use model::{classes, item_capacity, offered};
use reading::heap::SoundHeap;
use std::io;
use std::io::Write;
use words::Width;

// The six statistics, a line each.
pub fn write_statistics<W: Width, O: Write>(
    out: &mut O,
    heap: &SoundHeap<'_, W>,
) -> io::Result<()> {
    let s = heap.count();
    writeln!(out, "\nstatistics")?;
    writeln!(out, "free bytes {}", s.free_bytes)?;
    writeln!(out, "free blocks {}", s.free_blocks)?;
    writeln!(out, "largest free block {}", s.largest_free)?;
    writeln!(out, "variable blocks {}", s.variables)?;
    writeln!(out, "pages {}", s.pages)?;
    writeln!(out, "live items {}", s.items)
}

// The row of class c, where it has a page; and whether the class is closed.
fn write_class<W: Width, O: Write>(out: &mut O, c: usize, row: [u64; 3]) -> io::Result<()>
    requires { c < (shape W.BYTES).classes }
{
    let [pages, held, idle] = row;
    if pages == 0 {
        return Ok(());
    }
    let size = item_capacity::<W>(c);
    let closed = if offered::<W>() <= c { " closed" } else { "" };
    writeln!(out, "{c} {size} {pages} {held} {idle}{closed}")
}

// The classes that have a page, a line each.
pub fn write_classes<W: Width, O: Write>(out: &mut O, heap: &SoundHeap<'_, W>) -> io::Result<()> {
    writeln!(
        out,
        "\nclasses: class, item size, pages, live items, free items; closed: no more are handed out"
    )?;
    let rows = heap.tabulate();
    for c in 0..classes::<W>() {
        write_class::<W, O>(out, c, rows[c])?;
    }
    Ok(())
}
