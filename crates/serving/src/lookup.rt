// The payload at a live address, as that very part of the lent heap.
ghost use Rattle.serving.specs.Lookup.{HeldTold, Part, PartMut, TriedPart, TriedPartMut, RefusalTold};

use examining::examine;
use holding::shown;
use model::{Address, Refusal};
use words::Width;

// How many bytes are shown at an address.
fn held_at<W: Width>(h: &[u8], a: Address) -> Result<usize, Refusal>
    ensures { HeldTold W.BYTES h.now a.0 result }
{
    let heap = examine::<W>(h)?;
    shown::<W>(heap.bytes, a).ok_or(Refusal::NotLive)
}

// What is live at a, or why nothing is: of an item as many bytes as were asked for, of a block its whole capacity.
pub fn try_look_up<W: Width>(h: &[u8], a: Address) -> Result<&[u8], Refusal>
    ensures { TriedPart W.BYTES h.entry a.0 result }
{
    let n = held_at::<W>(h, a)?;
    Ok(&h[a.0..a.0 + n])
}

// The same part, lent for writing: `&mut` is another type. What a write through it does to the heap cannot be said here: the kit's `LendsIfOk` asks that the lender be no slice.
pub fn try_look_up_mut<W: Width>(h: &mut [u8], a: Address) -> Result<&mut [u8], Refusal>
    ensures { TriedPartMut W.BYTES h.entry a.0 result }
{
    let n = held_at::<W>(&*h, a)?;
    Ok(&mut h[a.0..a.0 + n])
}

// What a program prints of a look-up: the same part, empty where refused, and beside it the refusal's number, 0 where granted.
#[derive(Clone, Copy)]
pub struct LookedUp<'a> {
    pub part: &'a [u8],
    pub refusal: u64,
}

// The same part with its number, by one check.
pub fn look_up_told<W: Width>(h: &[u8], a: Address) -> LookedUp<'_>
    ensures { Part W.BYTES h.entry a.0 result.part × RefusalTold W.BYTES h.now a.0 result.refusal }
{
    match held_at::<W>(h, a) {
        Ok(n) => LookedUp {
            part: &h[a.0..a.0 + n],
            refusal: 0,
        },
        Err(k) => LookedUp {
            part: &h[0..0],
            refusal: u64::from(k),
        },
    }
}

// The same part; empty where refused.
pub fn look_up<W: Width>(h: &[u8], a: Address) -> &[u8]
    ensures { Part W.BYTES h.entry a.0 result }
{
    look_up_told::<W>(h, a).part
}

// The refusal's number of a look-up; 0 where a payload is live.
pub fn look_up_refusal<W: Width>(h: &[u8], a: Address) -> u64
    ensures { RefusalTold W.BYTES h.now a.0 result }
{
    look_up_told::<W>(h, a).refusal
}

// The same part, lent for writing; empty where refused.
pub fn look_up_mut<W: Width>(h: &mut [u8], a: Address) -> &mut [u8]
    ensures { PartMut W.BYTES h.entry a.0 result }
{
    match held_at::<W>(&*h, a) {
        Ok(n) => &mut h[a.0..a.0 + n],
        Err(_) => &mut h[0..0],
    }
}
