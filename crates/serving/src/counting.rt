// Statistics, and the table of classes.
ghost use Rattle.std.specs.Prelude.{◌≡◌};
ghost use Rattle.model.specs.Shape.{shape};
ghost use Rattle.model.specs.Calls.{Counts};
ghost use Rattle.serving.specs.Counting.{told_counted, printed_count, TableTold, TriedTable};

use examining::examine;
use model::{MOST_CLASSES, Refusal};
pub use reading::counting::Statistics;
use words::Width;

// Free bytes, free blocks, the largest free block, variable blocks, pages and live items.
pub fn statistics<W: Width>(h: &[u8]) -> Result<Statistics, Refusal>
    ensures { Counts (shape W.BYTES) h.now (told_counted result) }
{
    Ok(examine::<W>(h)?.count())
}

// The statistics as a program prints them: all 0 where refused, and beside them the refusal's number, 0 where granted.
#[derive(Clone, Copy)]
pub struct Counted {
    pub statistics: Statistics,
    pub refusal: u64,
}

// What is printed of the answer of `statistics`.
impl From<Result<Statistics, Refusal>> for Counted {
    ghost from_gives = { λ r c. printed_count c ≡ told_counted r };

    fn from(r: Result<Statistics, Refusal>) -> Counted {
        match r {
            Ok(statistics) => Counted {
                statistics,
                refusal: 0,
            },
            Err(k) => Counted {
                statistics: Statistics::default(),
                refusal: u64::from(k),
            },
        }
    }
}

// For each class its pages, its live items and its free items, zeros of classes that there are not; or why there is no table.
pub fn try_class_table<W: Width>(h: &[u8]) -> Result<[[u64; 3]; MOST_CLASSES], Refusal>
    ensures { TriedTable W.BYTES h.now result }
{
    Ok(examine::<W>(h)?.tabulate())
}

// The same table; zeros where refused.
pub fn class_table<W: Width>(h: &[u8]) -> [[u64; 3]; MOST_CLASSES]
    ensures { TableTold W.BYTES h.now result }
{
    match try_class_table::<W>(h) {
        Ok(rows) => rows,
        Err(_) => [[0u64; 3]; MOST_CLASSES],
    }
}
