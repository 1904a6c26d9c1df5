// A walk over the blocks, by value: each step hands the next walk back with its answer.
ghost use Rattle.std.specs.Prelude.{ℕ, ◌≡◌};
ghost use Rattle.model.specs.Shape.{shape, start};
ghost use Rattle.model.specs.Calls.{Steps};
ghost use Rattle.serving.specs.Walking.{told_step, printed_step};

use examining::examine;
use model::{Position, Refusal, start};
use reading::stepping::{Kind, MetBlock};
use words::Width;

// Where a walk stands.
#[derive(Clone, Copy)]
pub struct Walk {
    pub at: Position,
}

// A step's answer, the block or that there is none, and the walk behind it.
#[derive(Clone, Copy)]
pub struct Step {
    pub block: Option<MetBlock>,
    pub walk: Walk,
}

impl Walk {
    // A walk at the data area's start.
    pub fn start<W: Width>() -> Walk
        ensures { result.at.0 ≡ start (shape W.BYTES) }
    {
        Walk { at: start::<W>() }
    }

    // The block at which the walk stands, and the walk behind it; where none begins, none, and the walk stays.
    pub fn step<W: Width>(self, h: &[u8]) -> Result<Step, Refusal>
        ensures { Steps (shape W.BYTES) h.now self.at.0 (told_step W.BYTES self.at.0 result) }
    {
        let Some(block) = examine::<W>(h)?.meet(self.at) else {
            return Ok(Step {
                block: None,
                walk: self,
            });
        };
        let next = Position(self.at.0 + block.size);
        Ok(Step {
            block: Some(block),
            walk: Walk { at: next },
        })
    }

    // What a program prints of a step of this walk: where there is no block it is the end, and where refused the walk stays too.
    pub fn told(self, r: Result<Step, Refusal>) -> Stepped
        ensures { (w : ℕ) → printed_step result ≡ told_step w self.at.0 r }
    {
        let end = Stepped {
            refusal: 0,
            position: Position(0),
            size: 0,
            kind: None,
            next: self.at,
        };
        let step = match r {
            Ok(step) => step,
            Err(k) => {
                return Stepped {
                    refusal: u64::from(k),
                    ..end
                };
            }
        };
        let next = step.walk.at;
        match step.block {
            Some(b) => Stepped {
                refusal: 0,
                position: b.position,
                size: b.size,
                kind: Some(b.kind),
                next,
            },
            None => Stepped { next, ..end },
        }
    }
}

// A step as a program prints it: the refusal's number, 0 where granted; the block's position, size and kind, at the end 0, 0 and none; and where the walk then stands.
#[derive(Clone, Copy)]
pub struct Stepped {
    pub refusal: u64,
    pub position: Position,
    pub size: usize,
    pub kind: Option<Kind>,
    pub next: Position,
}
