// One record of a call list, played on a heap.
#![tactic(auto)]

ghost use Rattle.std.specs.Prelude.{◌≡◌, ◌≤◌, length};
ghost use Rattle.words.specs.Word.{word_at};
ghost use Rattle.records.specs.Lines.{body_length, line_of, OpensIn, AllocatesIn, FreesIn, ResizesIn, CountsIn, no_line, clip, CallPlayed, Plays};

use heap::{Answer, Refusal, Wide};
use model::{Address, end_of};

// What a record prints behind its number: the refusal, and the address or the six statistics. It is a line of the list's output, not an answer, so it has both at once.
#[derive(Clone, Copy)]
pub struct Line {
    pub refusal: u64,
    pub numbers: [u64; 6],
}

// The line of an answer: its refusal's number and its address.
fn told(r: Answer) -> Line
    ensures { result ≡ line_of r }
{
    match r {
        Ok(a) => Line {
            refusal: 0,
            numbers: [a.0 as u64, 0, 0, 0, 0, 0],
        },
        Err(k) => Line {
            refusal: u64::from(k),
            numbers: [0; 6],
        },
    }
}

// Allocates size bytes in the heap that is the first n bytes of the buffer: the contracts here, and the theorem `one_play`, tell what becomes of the whole buffer.
pub fn allocate(h: &mut [u8], n: usize, size: u64) -> Line
    requires { n ≤ length h.old }
    ensures { AllocatesIn h.old n size result h.new }
{
    told(heap::allocate::<Wide>(&mut h[0..n], size as usize))
}

// Gives the record at a back, in the same heap.
pub fn free(h: &mut [u8], n: usize, a: u64) -> Line
    requires { n ≤ length h.old }
    ensures { FreesIn h.old n a result h.new }
{
    told(heap::free::<Wide>(&mut h[0..n], Address(a as usize)))
}

// Makes the record at a one of size bytes, there or elsewhere, in the same heap.
pub fn resize(h: &mut [u8], n: usize, a: u64, size: u64) -> Line
    requires { n ≤ length h.old }
    ensures { ResizesIn h.old n a size result h.new }
{
    told(heap::resize::<Wide>(&mut h[0..n], Address(a as usize), size as usize))
}

// The statistics of the same heap.
pub fn count(h: &[u8], n: usize) -> Line
    requires { n ≤ length h.now }
    ensures { CountsIn h.now n result }
{
    match heap::statistics::<Wide>(&h[0..n]) {
        Ok(s) => Line {
            refusal: 0,
            numbers: [
                s.free_bytes,
                s.free_blocks,
                s.largest_free,
                s.variables,
                s.pages,
                s.items,
            ],
        },
        Err(k) => told(Err(k)),
    }
}

// A line, and how much of the buffer is the heap from then on.
#[derive(Clone, Copy)]
pub struct Played {
    pub line: Line,
    pub lent: usize,
}

// Opens a heap in the first n bytes of the buffer, up to their furthest end: from then on these are the heap, or still the first `lent` where that is refused.
pub fn open(h: &mut [u8], lent: usize, n: u64) -> Played
    ensures { OpensIn h.old lent n result h.new }
{
    let length = n as usize;
    if h.len() < length {
        let line = told(Err(Refusal::BadLength));
        return Played { line, lent };
    }
    let line = told(heap::initialise::<Wide>(&mut h[0..length], end_of(length)));
    if line.refusal == 0 {
        return Played { line, lent: length };
    }
    Played { line, lent }
}

// How long the body of a record of a kind is; 9 of a kind that there is not.
pub fn body_length(kind: u8) -> usize
    ensures { (result ≡ body_length kind) × (result ≤ 9) }
{
    match kind {
        0 | 1 | 3 => 4,
        2 => 8,
        4 => 0,
        _ => 9,
    }
}

// The number of 4 bytes that stands at a place of a record's body.
fn number(body: &[u8; 8], at: usize) -> u64
    requires { at ≤ 4 }
    ensures { result ≡ word_at 4 body.now at }
{
    u64::from(u32::from_le_bytes([body[at], body[at + 1], body[at + 2], body[at + 3]]))
}

// The length lent, and no more than the buffer has.
fn clipped(lent: usize, most: usize) -> usize
    ensures { result ≡ clip lent most }
{
    lent.min(most)
}

// A record of a kind that there is not: a line of zeros.
fn nothing() -> Line
    ensures { result ≡ no_line }
{
    Line {
        refusal: 0,
        numbers: [0; 6],
    }
}

// A record of kind 1 to 4, which is a byte of the list and may be any (`Plays` and an edit speak of unknown ones), on the heap that is the first n bytes of the buffer.
fn call(h: &mut [u8], n: usize, kind: u8, body: &[u8; 8]) -> Line
    requires { n ≤ length h.old }
    ensures { CallPlayed h.old n kind body.now result h.new }
{
    let first = number(body, 0);
    match kind {
        1 => allocate(h, n, first),
        2 => resize(h, n, first, number(body, 4)),
        3 => free(h, n, first),
        4 => count(h, n),
        _ => nothing(),
    }
}

// Plays one record: of kind 0 initialise, 1 allocate, 2 resize, 3 free, 4 statistics.
pub fn play(h: &mut [u8], lent: usize, kind: u8, body: &[u8; 8]) -> Played
    ensures { Plays h.old lent kind body.now result h.new }
{
    if kind == 0 {
        return open(h, lent, number(body, 0));
    }
    let n = clipped(lent, h.len());
    let line = call(h, n, kind, body);
    Played { line, lent }
}
