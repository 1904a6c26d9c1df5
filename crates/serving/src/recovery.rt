// The sweep: pages with no live record come back as free space.
ghost use Rattle.model.specs.Shape.{shape};
ghost use Rattle.model.specs.Calls.{Sweeps};
ghost use Rattle.serving.specs.Answers.{swept_outcome};

use ending::stored_end;
use examining::examine;
use model::Refusal;
use words::Width;

// Gives back the pages with no live record, and links every class's list anew, fullest pages first; answers how many pages came back.
pub fn sweep<W: Width>(h: &mut [u8]) -> Result<usize, Refusal>
    ensures { Sweeps (shape W.BYTES) h.old (swept_outcome result h.new) }
{
    examine::<W>(h)?;
    let end = stored_end::<W>(h).0;
    Ok(sweeping::sweep::<W>(&mut h[0..end]))
}
