// The ways of resize, once the heap is known to be sound and the size to be good: where the record stands, by a move, as it is.
ghost use Rattle.std.specs.Prelude.{ℕ};
ghost use Rattle.model.specs.Calls.{staying, moving, keeping};
ghost use Rattle.engine.specs.Allocate.{Asked};
ghost use Rattle.engine.specs.Ready.{Ready};
ghost use Rattle.moving.specs.Mend.{BlockLiveAt};
ghost use Rattle.resizing.specs.Ways.{ItemLiveAt, ByWay};

use find::{Live, UsedBlock, find};
use holding::capacity;
use items::{give, renew};
use links::back_at;
use model::{Address, Position, Refusal, block_capacity, class_of, item_shown, largest_item};
use moving::carry::carry;
use moving::mend::mend;
use releasing::release;
use reshaping::reshape;
use words::Width;

// The item of class c with its header at q, where it stands: it can stay in its own class only, and is for n bytes then.
fn stay_item<W: Width>(
    h: &mut [u8],
    a: Address,
    q: Position,
    c: usize,
    n: usize,
) -> Result<Address, Refusal>
    requires by_index { (k : ℕ) × ItemLiveAt W.BYTES h.old a.0 q.0 c k }
    requires asked { Asked W.BYTES n }
    ensures { ByWay W.BYTES staying h.old a.0 n result h.new }
{
    if class_of(n) != c {
        return Err(Refusal::NoRoom);
    }
    renew::<W>(h, q, c, n);
    Ok(a)
}

// The variable block x, where it stands.
fn stay_block<W: Width>(
    h: &mut [u8],
    a: Address,
    x: UsedBlock,
    n: usize,
) -> Result<Address, Refusal>
    requires block_live_at { BlockLiveAt W.BYTES h.old a.0 x }
    requires asked { Asked W.BYTES n }
    ensures { ByWay W.BYTES staying h.old a.0 n result h.new }
{
    if n <= largest_item::<W>() {
        return Err(Refusal::NoRoom);
    }
    if reshape::<W>(h, x, n) {
        return Ok(a);
    }
    Err(Refusal::NoRoom)
}

// Resizes what is live at a to n bytes where it stands.
pub fn stay<W: Width>(h: &mut [u8], a: Address, n: usize) -> Result<Address, Refusal>
    requires ready { Ready W.BYTES h.old }
    requires asked { Asked W.BYTES n }
    ensures { ByWay W.BYTES staying h.old a.0 n result h.new }
{
    match find::<W>(h, a).ok_or(Refusal::NotLive)? {
        Live::Item { at, class, .. } => stay_item::<W>(h, a, at, class, n),
        Live::Variable(b) => stay_block::<W>(h, a, b, n),
    }
}

// The item of class c with its header at q, for which k bytes were asked, by a move: the new one is taken first, so it is another even in the same class.
fn move_item<W: Width>(
    h: &mut [u8],
    a: Address,
    q: Position,
    c: usize,
    k: usize,
    n: usize,
) -> Result<Address, Refusal>
    requires item_live_at { ItemLiveAt W.BYTES h.old a.0 q.0 c k }
    requires asked { Asked W.BYTES n }
    ensures { ByWay W.BYTES moving h.old a.0 n result h.new }
{
    let new = carry::<W>(h, a, item_shown::<W>(c, k), n).ok_or(Refusal::NoRoom)?;
    give::<W>(h, q, c);
    Ok(new)
}

// The variable block x by a move. The free block before it is read first: the allocation may take the one that stands between.
fn move_block<W: Width>(
    h: &mut [u8],
    a: Address,
    x: UsedBlock,
    n: usize,
) -> Result<Address, Refusal>
    requires block_live_at { BlockLiveAt W.BYTES h.old a.0 x }
    requires asked { Asked W.BYTES n }
    ensures { ByWay W.BYTES moving h.old a.0 n result h.new }
{
    let before = Position(W::word(h, back_at::<W>(h, x.prev).0));
    let new = carry::<W>(h, a, block_capacity::<W>(x.size), n).ok_or(Refusal::NoRoom)?;
    let y = mend::<W>(h, x, before);
    release::<W>(h, y);
    Ok(new)
}

// Moves what is live at a to n bytes elsewhere.
pub fn relocate<W: Width>(h: &mut [u8], a: Address, n: usize) -> Result<Address, Refusal>
    requires ready { Ready W.BYTES h.old }
    requires asked { Asked W.BYTES n }
    ensures { ByWay W.BYTES moving h.old a.0 n result h.new }
{
    match find::<W>(h, a).ok_or(Refusal::NotLive)? {
        Live::Item { at, class, asked } => move_item::<W>(h, a, at, class, asked, n),
        Live::Variable(b) => move_block::<W>(h, a, b, n),
    }
}

// Whether what is live at a holds n bytes as it is.
pub fn keep<W: Width>(h: &[u8], a: Address, n: usize) -> Result<Address, Refusal>
    requires { Ready W.BYTES h.now }
    ensures { ByWay W.BYTES keeping h.now a.0 n result h.now }
{
    let has = capacity::<W>(h, a).ok_or(Refusal::NotLive)?;
    if n <= has {
        return Ok(a);
    }
    Err(Refusal::NoRoom)
}
