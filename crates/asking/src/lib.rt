// Questions on heaps: the input holds a heap and questions on it, again and again; each is answered in turn.
// A heap is its length and its bytes, then the number of questions, and each question a byte of kind and a number. Numbers have 8 bytes,
// the lowest first. Input that is not so is told, and ends the program.
#![tactic(auto)]

pub mod answers;
pub mod input;
pub mod payload;

use crate::answers::answer;
use crate::input::{Reason, read_number, stop, stop_short};
use filling::fill;
use showing::room;
use std::io;
use std::io::{Input, Read, Write};

// Reads and answers a question.
fn turn<R: Read, W: Write>(input: &mut R, out: &mut W, h: &mut [u8]) -> Result<(), Reason> {
    let mut kind = [0u8; 1];
    if !fill(input, &mut kind)? {
        return stop_short();
    }
    let Some(n) = read_number(input)? else {
        return stop_short();
    };
    answer(out, h, kind[0], n)
}

// The questions on a heap that has been read.
fn questions<R: Read, W: Write>(input: &mut R, out: &mut W, h: &mut [u8]) -> Result<(), Reason> {
    let Some(count) = read_number(input)? else {
        return stop_short();
    };
    for _ in 0..count {
        turn(input, out, h)?;
    }
    Ok(())
}

// A heap of n bytes, read into the buffer, and the questions on it.
fn heap_of<R: Read, W: Write>(
    input: &mut R,
    out: &mut W,
    buffer: &mut [u8],
    n: u64,
) -> Result<(), Reason> {
    let length = n as usize;
    if buffer.len() < length {
        return Err(Reason::HeapTooLong);
    }
    if !fill(input, &mut buffer[..length])? {
        return stop_short();
    }
    questions(input, out, &mut buffer[..length])
}

// Every heap in turn. A proved loop has to end: it counts the heaps, to a number that no input reaches.
fn answer_heaps<R: Read, W: Write>(
    input: &mut R,
    out: &mut W,
    buffer: &mut [u8],
) -> Result<(), Reason> {
    for _ in 0..u64::MAX {
        let Some(length) = read_number(input)? else {
            return Ok(());
        };
        heap_of(input, out, buffer, length)?;
    }
    Ok(())
}

// The questions of standard input.
pub fn run(rt: &(impl Input + Print)) -> io::Result<()> {
    let mut out = io::writer(rt);
    let mut buffer = room();
    match answer_heaps(&mut rt.reader(), &mut out, &mut buffer) {
        Ok(()) => Ok(()),
        Err(Reason::Failed(e)) => Err(e),
        Err(why) => stop(&mut out, &why),
    }
}
