// A report on a heap, for service staff: the check's answer, and of a sound heap its end, statistics, classes, blocks, live payloads and a map.
// The heap is checked once; every later part stands on that answer and reads by one walk.
#![tactic(auto)]

pub mod blocks;
pub mod counts;
pub mod map;
pub mod payloads;

ghost use Rattle.std.specs.Prelude.{◌≡◌, ◌+◌, ◌≤◌, length};
ghost use Rattle.model.specs.Shape.{wide, hand, end_of};
ghost use Rattle.model.specs.Calls.{Opened};
ghost use Rattle.telling.specs.Tells.{Tells};
ghost use Rattle.showing.specs.Widths.{OwnWidth};

use crate::blocks::write_blocks;
use crate::counts::{write_classes, write_statistics};
use crate::map::write_map;
use crate::payloads::write_payloads;
use examining::examine;
use filling::read_full;
use model::{HAND, Hand, MAGIC_BYTES, MOST_BYTES, Position, Refusal, Wide, end_of, grows, magic};
use reading::heap::SoundHeap;
use std::io;
use std::io::{Input, Write};
use words::{Eight, Width};

// Whether a buffer holds the hand unit's heap, as its first 8 bytes say. Any other is taken for the console's.
pub fn is_hand(h: &[u8]) -> bool
    ensures { Tells result (Opened hand h.now) }
{
    if h.len() < MAGIC_BYTES {
        return false;
    }
    Eight::word(h, 0) == magic::<Hand>()
}

// Whose heap it is, where it is not the console's.
fn write_unit<W: Width, O: Write>(out: &mut O) -> io::Result<()> {
    if W::BYTES == HAND {
        writeln!(out, "hand unit")?;
    }
    Ok(())
}

// Why the heap is refused. Nothing else is said of it: none of it could be trusted.
fn write_refusal<W: Width, O: Write>(out: &mut O, k: Refusal, n: usize) -> io::Result<()> {
    writeln!(out, "check: {} {k}", u64::from(k))?;
    write_unit::<W, O>(out)?;
    if MOST_BYTES < n {
        writeln!(out, "the input is too long: more than {MOST_BYTES} bytes")?;
    }
    Ok(())
}

// Where a heap that may grow ends, and how much further it could in a buffer of n bytes.
fn write_end<W: Width, O: Write>(out: &mut O, end: Position, n: usize) -> io::Result<()>
    requires { end.0 ≤ end_of n }
{
    if !grows::<W>() {
        return Ok(());
    }
    writeln!(out, "end {}", end.0)?;
    writeln!(out, "room to grow {}", end_of(n).0 - end.0)
}

// All that is told of a sound heap, in a buffer of n bytes.
fn write_sound<W: Width, O: Write>(out: &mut O, heap: &SoundHeap<'_, W>, n: usize) -> io::Result<()>
    requires { end_of (length heap.now) ≤ end_of n }
{
    writeln!(out, "check: sound")?;
    write_unit::<W, O>(out)?;
    write_end::<W, O>(out, end_of(heap.bytes.len()), n)?;
    write_statistics(out, heap)?;
    write_classes(out, heap)?;
    write_blocks(out, heap)?;
    write_payloads(out, heap)?;
    write_map(out, heap)
}

// The report on a heap with words of this width, which is its own.
fn write_answer<W: Width, O: Write>(out: &mut O, h: &[u8]) -> io::Result<()>
    requires { OwnWidth W.BYTES h.now }
{
    match examine::<W>(h) {
        Ok(heap) => write_sound(out, &heap, h.len()),
        Err(k) => write_refusal::<W, O>(out, k, h.len()),
    }
}

// The report on a heap, of either kind.
pub fn write_report<O: Write>(out: &mut O, h: &[u8]) -> io::Result<()> {
    if is_hand(h) {
        write_answer::<Hand, O>(out, h)
    } else {
        write_answer::<Wide, O>(out, h)
    }
}

// Room for the longest heap, and for one byte more, by which a longer one is noticed.
pub fn room() -> [u8; MOST_BYTES + 1]
    ensures { wide.most + 1 ≡ length result }
{
    [0; MOST_BYTES + 1]
}

// The report on what standard input holds.
pub fn run(rt: &(impl Input + Print)) -> io::Result<()> {
    let mut bytes = room();
    let n = read_full(&mut rt.reader(), &mut bytes)?;
    write_report(&mut io::writer(rt), &bytes[..n])
}
