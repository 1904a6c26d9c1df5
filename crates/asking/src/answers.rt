// The kinds of questions, each a call of `serving` or the report of `showing`, and their lines. The first 8 bytes of a heap tell the width of its words.
ghost use Rattle.showing.specs.Widths.{OwnWidth};

use crate::input::Reason;
use crate::payload::{sum_of, turn_over};
use model::{Address, Hand, Position, Wide};
use reading::stepping::Kind;
use serving::counting::{Counted, class_table, statistics};
use serving::lookup::{LookedUp, look_up_mut, look_up_told};
use serving::walks::Walk;
use showing::{is_hand, write_report};
use std::io;
use std::io::Write;
use words::Width;

// Look-up: the refusal number; how many bytes the payload has, and their sum.
fn answer_look_up<W: Width, O: Write>(out: &mut O, h: &[u8], a: Address) -> io::Result<()> {
    let LookedUp { part, refusal } = look_up_told::<W>(h, a);
    writeln!(out, "{refusal} {} {}", part.len(), sum_of(part))
}

// Look-up for writing: how many bytes the payload has. All are turned over.
fn answer_turned<W: Width, O: Write>(out: &mut O, h: &mut [u8], a: Address) -> io::Result<()> {
    let part = look_up_mut::<W>(h, a);
    turn_over(part);
    writeln!(out, "{}", part.len())
}

// What a block is, or that there is none.
fn write_kind<O: Write>(out: &mut O, kind: Option<Kind>) -> io::Result<()> {
    match kind {
        Some(Kind::Free { next, previous }) => writeln!(out, "free {} {}", next.0, previous.0),
        Some(Kind::Variable) => writeln!(out, "variable"),
        Some(Kind::Page { class }) => writeln!(out, "page {class}"),
        None => writeln!(out, "end"),
    }
}

// A step of a walk: the refusal number; where the walk then stands; the block's position and size, and what it is.
fn answer_step<W: Width, O: Write>(out: &mut O, h: &[u8], walk: Walk) -> io::Result<()> {
    let step = walk.told(walk.step::<W>(h));
    write!(
        out,
        "{} {} {} {} ",
        step.refusal, step.next.0, step.position.0, step.size
    )?;
    write_kind(out, step.kind)
}

// Statistics: the refusal number, and the six numbers.
fn answer_statistics<W: Width, O: Write>(out: &mut O, h: &[u8]) -> io::Result<()> {
    let counted = Counted::from(statistics::<W>(h));
    let s = counted.statistics;
    write!(
        out,
        "{} {} {}",
        counted.refusal, s.free_bytes, s.free_blocks
    )?;
    write!(out, " {} {}", s.largest_free, s.variables)?;
    writeln!(out, " {} {}", s.pages, s.items)
}

// The table of classes: a class's pages, live items and free items.
fn answer_table<W: Width, O: Write>(out: &mut O, h: &[u8]) -> io::Result<()> {
    write!(out, "classes")?;
    for [pages, held, idle] in class_table::<W>(h) {
        write!(out, " {pages} {held} {idle}")?;
    }
    writeln!(out)
}

// The report, and an empty line.
fn answer_report<O: Write>(out: &mut O, h: &[u8]) -> io::Result<()> {
    write_report(out, h)?;
    writeln!(out)
}

// A question, with the address or the walk that it is about.
#[derive(Clone, Copy)]
enum Question {
    LookUp(Address),
    Step(Walk),
    FirstStep,
    Statistics,
    Table,
    Report,
    Turn(Address),
}

impl Question {
    // The question of a kind, with a number that is an address, a position or nothing.
    fn new(kind: u8, n: u64) -> Result<Question, Reason> {
        let n = n as usize;
        match kind {
            0 => Ok(Question::LookUp(Address(n))),
            1 => Ok(Question::Step(Walk { at: Position(n) })),
            2 => Ok(Question::FirstStep),
            3 => Ok(Question::Statistics),
            4 => Ok(Question::Table),
            5 => Ok(Question::Report),
            6 => Ok(Question::Turn(Address(n))),
            _ => Err(Reason::NoSuchQuestion),
        }
    }
}

// What a question on a heap with words of this width, which is its own, is answered: a line, the report many.
fn reply<W: Width, O: Write>(out: &mut O, h: &mut [u8], question: Question) -> io::Result<()>
    requires { OwnWidth W.BYTES h.old }
{
    match question {
        Question::LookUp(a) => answer_look_up::<W, O>(out, h, a),
        Question::Step(walk) => answer_step::<W, O>(out, h, walk),
        Question::FirstStep => answer_step::<W, O>(out, h, Walk::start::<W>()),
        Question::Statistics => answer_statistics::<W, O>(out, h),
        Question::Table => answer_table::<W, O>(out, h),
        Question::Report => answer_report(out, h),
        Question::Turn(a) => answer_turned::<W, O>(out, h, a),
    }
}

// Answers a question of a kind, with a number: 0 look-up, 1 a walk's step, 2 its first step, 3 statistics, 4 the table of classes, 5 the report,
// 6 look-up for writing.
pub fn answer<O: Write>(out: &mut O, h: &mut [u8], kind: u8, n: u64) -> Result<(), Reason> {
    let question = Question::new(kind, n)?;
    if is_hand(h) {
        reply::<Hand, O>(out, h, question)?;
    } else {
        reply::<Wide, O>(out, h, question)?;
    }
    Ok(())
}
