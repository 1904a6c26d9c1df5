// A map of the data area in text: a character for each part of it, in lines.
ghost use Rattle.std.specs.Prelude.{◌+◌, ◌≤◌, ◌<◌, ◌^◌, IfOk};
ghost use Rattle.reading.specs.Counting.{AtPage};
ghost use Rattle.reading.specs.Stepping.{BlockRead};

use model::{Position, end_of, start};
use reading::counting::page_at;
use reading::heap::SoundHeap;
use reading::stepping::{Kind, MetBlock};
use std::io;
use std::io::Write;
use words::Width;

// A map has at most so many characters, and so many in a line.
const CHARACTERS: usize = 1024;

const COLUMNS: usize = 64;

// Where the next character goes: the position whose block it shows, and its place in its line.
#[derive(Clone, Copy)]
struct Pen {
    at: Position,
    column: usize,
}

// How full a page is, in whole tenths; a full page counts as nine.
fn tenths(held: u64, idle: u64) -> u8
    requires { (1 ≤ held + idle) × (held < 2 ^ 32) × (idle < 2 ^ 32) }
{
    let t = 10 * held / (held + idle);
    if t < 10 {
        return b'0' + t as u8;
    }
    b'9'
}

// The character of the page at p.
fn page_mark<W: Width>(h: &[u8], p: Position) -> u8
    requires { AtPage W.BYTES h.now p.0 }
{
    let page = page_at::<W>(h, p);
    tenths(page.held, page.idle)
}

// The character of a block. The class is bound, though not used: without it the proof does not know what the block is.
fn block_mark<W: Width>(h: &[u8], b: MetBlock) -> u8
    requires { BlockRead W.BYTES h.now b.position.0 b }
{
    match b.kind {
        Kind::Free { .. } => b'.',
        Kind::Variable => b'#',
        Kind::Page { class } => page_mark::<W>(h, b.position),
    }
}

// One character, and the column after it.
fn put<O: Write>(out: &mut O, mark: u8, column: usize) -> io::Result<usize>
    requires { column < 64 }
    ensures { IfOk result (λ next. next < 64) }
{
    out.write_all(&[mark])?;
    if column + 1 < COLUMNS {
        return Ok(column + 1);
    }
    writeln!(out)?;
    Ok(0)
}

// The characters of a block that ends at `end`, each for `part` bytes.
fn draw<O: Write>(out: &mut O, mark: u8, pen: Pen, part: usize, end: Position) -> io::Result<Pen>
    requires { (1 ≤ part) × (part < 2 ^ 63) × (end.0 < 2 ^ 63) × (pen.column < 64) }
    ensures { IfOk result (λ next. next.column < 64) }
{
    let mut at = pen.at.0;
    let mut column = pen.column;
    // No range: the next block's first character goes where this one's loop ends.
    while at < end.0 {
        column = put(out, mark, column)?;
        at += part;
    }
    Ok(Pen {
        at: Position(at),
        column,
    })
}

// The map's characters, each for `part` bytes.
fn draw_all<W: Width, O: Write>(
    out: &mut O,
    heap: &SoundHeap<'_, W>,
    part: usize,
) -> io::Result<Pen>
    requires { (1 ≤ part) × (part < 2 ^ 63) }
    ensures { IfOk result (λ pen. pen.column < 64) }
{
    let mut pen = Pen {
        at: start::<W>(),
        column: 0,
    };
    for block in heap.blocks() {
        let end = Position(block.position.0 + block.size);
        pen = draw(out, block_mark::<W>(heap.bytes, block), pen, part, end)?;
    }
    Ok(pen)
}

// The map, with a line that says how to read it.
pub fn write_map<W: Width, O: Write>(out: &mut O, heap: &SoundHeap<'_, W>) -> io::Result<()> {
    let part = (end_of(heap.bytes.len()).0 - start::<W>().0) / CHARACTERS + 1;
    writeln!(
        out,
        "\nmap: each character is {part} bytes, and shows the block at the first of them: . free, # variable, 0 to 9 page by tenths of its items in use (9: nine or ten)"
    )?;
    let pen = draw_all(out, heap, part)?;
    if pen.column != 0 {
        writeln!(out)?;
    }
    Ok(())
}
