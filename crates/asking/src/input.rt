// What is read of the input, and why the program stops where that is not as it should be.
use filling::read_full;
use std::io::{Read, Write};
use std::{fmt, io};

// Why the program stops before the input ends; or a read or a write failed.
#[derive(Debug, Drop)]
pub enum Reason {
    CutShort,
    HeapTooLong,
    NoSuchQuestion,
    Failed(io::Error),
}

impl fmt::Display for Reason {
    fn fmt<W: fmt::Write>(&self, f: &mut fmt::Formatter<W>) -> fmt::Result {
        match self {
            Reason::CutShort => write!(f, "the input is cut short"),
            Reason::HeapTooLong => write!(f, "a heap is too long"),
            Reason::NoSuchQuestion => write!(f, "there is no such question"),
            Reason::Failed(e) => write!(f, "{e}"),
        }
    }
}

impl From<io::Error> for Reason {
    fn from(e: io::Error) -> Reason {
        Reason::Failed(e)
    }
}

// The bytes of a number.
const NUMBER: usize = 8;

// A number of the input; or none, where it has ended.
pub fn read_number<R: Read>(input: &mut R) -> Result<Option<u64>, Reason> {
    let mut bytes = [0u8; NUMBER];
    match read_full(input, &mut bytes)? {
        0 => Ok(None),
        NUMBER => Ok(Some(u64::from_le_bytes(bytes))),
        _ => stop_short(),
    }
}

// The input ends where it should go on.
pub fn stop_short<T>() -> Result<T, Reason> {
    Err(Reason::CutShort)
}

// Says why the program ends.
pub fn stop<W: Write>(out: &mut W, why: &Reason) -> io::Result<()> {
    writeln!(out, "stop: {why}")
}
