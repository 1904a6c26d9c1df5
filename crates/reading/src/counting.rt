// Statistics and the table of classes: each by one walk over the blocks, and over a page's items.
ghost use Rattle.std.specs.Prelude.{◌≡◌, List, ℕ, ◌+◌, ◌*◌, ◌≤◌, ◌<◌, length};
ghost use Rattle.model.specs.Shape.{shape, item_size};
ghost use Rattle.model.specs.Layout.{Layout, Slot};
ghost use Rattle.model.specs.Sound.{Here};
ghost use Rattle.model.specs.Reading.{counted, rows_from};
ghost use Rattle.reading.specs.Counting.{table_rows, held_from, AtPage, PageAt, PageTold, RowRoom, row_and, Going, told};
ghost use Rattle.reading.specs.Stepping.{BlockRead};

use crate::heap::SoundHeap;
use crate::stepping::{Kind, MetBlock};
use model::{MOST_CLASSES, Position, class_in, first_item_at, item_size, items_in_page, used_in};
use words::Width;

// What the blocks of a heap come to, 0 of each before any is counted.
#[derive(Clone, Copy, Default)]
pub struct Statistics {
    pub free_bytes: u64,
    pub free_blocks: u64,
    pub largest_free: u64,
    pub variables: u64,
    pub pages: u64,
    pub items: u64,
}

// A page: its class, and how many of its items are in use and how many are free.
#[derive(Clone, Copy)]
pub struct Page {
    pub class: usize,
    pub held: u64,
    pub idle: u64,
}

// How many of n items of class c, with their headers from `first` on, are in use.
fn count_held<W: Width>(h: &[u8], first: Position, c: usize, n: usize) -> u64
    requires { (c < (shape W.BYTES).classes) × (n ≡ (shape W.BYTES).per_page c) × (first.0 + n * item_size (shape W.BYTES) c ≤ length h.now) }
    ensures { (result ≡ held_from W.BYTES h.now c first.0 n) × (result ≤ n) }
{
    let size = item_size::<W>(c);
    let mut q = first;
    let mut held = 0;
    for _ in 0..n {
        held += used_in(W::word(h, q.0)) as u64;
        q = Position(q.0 + size);
    }
    held
}

// The page at p.
pub fn page_at<W: Width>(h: &[u8], p: Position) -> Page
    requires { AtPage W.BYTES h.now p.0 }
    ensures { (c k : ℕ) (ss : List Slot) → PageAt W.BYTES h.now p.0 c k ss → PageTold result c ss }
{
    let first = first_item_at::<W>(p);
    let c = class_in::<W>(W::word(h, first.0));
    let n = items_in_page::<W>(c);
    let held = count_held::<W>(h, first, c, n);
    Page {
        class: c,
        held,
        idle: n as u64 - held,
    }
}

// What was counted, and one block more.
fn with_block<W: Width>(h: &[u8], s: Statistics, block: MetBlock) -> Statistics
    requires { Going W.BYTES counted h.now block.position.0 (told s) × BlockRead W.BYTES h.now block.position.0 block }
    ensures { Going W.BYTES counted h.now (block.position.0 + block.size) (told result) }
{
    let mut r = s;
    match block.kind {
        Kind::Free { .. } => {
            let size = block.size as u64;
            r.free_bytes += size;
            r.free_blocks += 1;
            r.largest_free = r.largest_free.max(size);
        }
        Kind::Variable => r.variables += 1,
        Kind::Page { .. } => {
            r.pages += 1;
            r.items += page_at::<W>(h, block.position).held;
        }
    }
    r
}

// A class's row, and one page more of it.
fn with_page(row: [u64; 3], held: u64, idle: u64) -> [u64; 3]
    requires { RowRoom row held idle }
    ensures { result ≡ row_and row held idle }
{
    [row[0] + 1, row[1] + held, row[2] + idle]
}

impl<'a, W: Width> SoundHeap<'a, W> {
    // The statistics of the heap.
    pub fn count(&self) -> Statistics
        ensures { (L : Layout) → Here (shape W.BYTES) self.now L → told result ≡ counted L.blocks }
    {
        let mut s = Statistics::default();
        for block in self.blocks() {
            s = with_block::<W>(self.bytes, s, block);
        }
        s
    }

    // The table of classes: for each, its pages, its items in use and its free items. Rows of classes that there are not are 0.
    pub fn tabulate(&self) -> [[u64; 3]; MOST_CLASSES]
        ensures { (L : Layout) → Here (shape W.BYTES) self.now L → result ≡ rows_from table_rows 0 L.blocks }
    {
        let mut rows = [[0u64; 3]; MOST_CLASSES];
        for block in self.blocks() {
            if let Kind::Page { .. } = block.kind {
                let page = page_at::<W>(self.bytes, block.position);
                let row = &mut rows[page.class];
                *row = with_page(*row, page.held, page.idle);
            }
        }
        rows
    }
}
