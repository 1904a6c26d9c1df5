// The call-list program: it reads records, plays each on one heap, and writes a line for each.
#![tactic(auto)]

use filling::fill;
use records::{Line, body_length, play};
use std::io;
use std::io::{Input, Read, Write};

// A record of the list.
#[derive(Clone, Copy)]
struct Record {
    kind: u8,
    body: [u8; 8],
}

// Why the program stops before the list ends: an unknown kind or a short body; or a read or a write failed.
#[derive(Debug, Drop)]
enum Reason {
    NoRecord,
    Failed(io::Error),
}

impl From<io::Error> for Reason {
    fn from(e: io::Error) -> Reason {
        Reason::Failed(e)
    }
}

// The kind whose line has six numbers.
const STATISTICS: u8 = 4;

// The bytes that stand for a heap before one is opened.
const ROOM: usize = 65536;

// Reads the body of a record of this kind.
fn read_body<R: Read>(input: &mut R, kind: u8) -> Result<[u8; 8], Reason> {
    let mut body = [0u8; 8];
    let length = body_length(kind);
    if body.len() < length {
        return Err(Reason::NoRecord);
    }
    if !fill(input, &mut body[..length])? {
        return Err(Reason::NoRecord);
    }
    Ok(body)
}

// Reads the next record; or none, where the list has ended.
fn read_next<R: Read>(input: &mut R) -> Result<Option<Record>, Reason> {
    let mut kind = [0u8; 1];
    if !fill(input, &mut kind)? {
        return Ok(None);
    }
    let [kind] = kind;
    let body = read_body(input, kind)?;
    Ok(Some(Record { kind, body }))
}

// A line: record number, refusal number, address; for statistics, the six numbers instead of the address.
fn write_line<W: Write>(out: &mut W, n: u64, kind: u8, line: Line) -> io::Result<()> {
    let refusal = line.refusal;
    let [a, b, c, d, e, f] = line.numbers;
    if kind == STATISTICS {
        writeln!(out, "{n} {refusal} {a} {b} {c} {d} {e} {f}")
    } else {
        writeln!(out, "{n} {refusal} {a}")
    }
}

// Plays every record in turn, on a heap that is the whole buffer until a kind 0 is granted. A proved loop has to end: it counts the records, to a number that no list reaches.
fn play_all<R: Read, W: Write>(input: &mut R, out: &mut W, h: &mut [u8]) -> Result<(), Reason> {
    let mut lent = h.len();
    for n in 0..u64::MAX {
        let Some(record) = read_next(input)? else {
            return Ok(());
        };
        let played = play(h, lent, record.kind, &record.body);
        lent = played.lent;
        write_line(out, n, record.kind, played.line)?;
    }
    Ok(())
}

// Plays the list of standard input, on zero bytes.
pub fn run(rt: &(impl Input + Print)) -> io::Result<()> {
    let mut out = io::writer(rt);
    let mut h = [0u8; ROOM];
    match play_all(&mut rt.reader(), &mut out, &mut h) {
        Ok(()) => Ok(()),
        Err(Reason::Failed(e)) => Err(e),
        Err(Reason::NoRecord) => writeln!(out, "stop"),
    }
}
