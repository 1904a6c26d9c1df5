// The calls for the hand unit's C host: numbers and a byte slice in, refusal × 2^32 + address out. C has no generic names, so they stand beside the console's.
#![tactic(auto)]

ghost use Rattle.std.specs.Prelude.{length};
ghost use Rattle.model.specs.Shape.{hand, end_of};
ghost use Rattle.model.specs.Calls.{Initialises, Checks, Allocates, Frees, ResizesInPlace, Moves, Resizes, Sweeps};
ghost use Rattle.numbering.specs.Numbers.{Numbered};

use model::{Hand, end_of};

#[unsafe(no_mangle)]
pub extern "C" fn jagwibodu_hand_initialise(h: &mut [u8]) -> u64
    ensures { Numbered (Initialises hand h.old (end_of (length h.old))) result h.new }
{
    numbering::initialise::<Hand>(h, end_of(h.len()))
}

#[unsafe(no_mangle)]
pub extern "C" fn jagwibodu_hand_check(h: &[u8]) -> u64
    ensures { Numbered (Checks hand h.now) result h.now }
{
    numbering::check::<Hand>(h)
}

#[unsafe(no_mangle)]
pub extern "C" fn jagwibodu_hand_allocate(h: &mut [u8], size: u64) -> u64
    ensures { Numbered (Allocates hand h.old size) result h.new }
{
    numbering::allocate::<Hand>(h, size)
}

#[unsafe(no_mangle)]
pub extern "C" fn jagwibodu_hand_free(h: &mut [u8], address: u64) -> u64
    ensures { Numbered (Frees hand h.old address) result h.new }
{
    numbering::free::<Hand>(h, address)
}

#[unsafe(no_mangle)]
pub extern "C" fn jagwibodu_hand_resize_in_place(h: &mut [u8], address: u64, size: u64) -> u64
    ensures { Numbered (ResizesInPlace hand h.old address size) result h.new }
{
    numbering::resize_in_place::<Hand>(h, address, size)
}

#[unsafe(no_mangle)]
pub extern "C" fn jagwibodu_hand_move(h: &mut [u8], address: u64, size: u64) -> u64
    ensures { Numbered (Moves hand h.old address size) result h.new }
{
    numbering::relocate::<Hand>(h, address, size)
}

#[unsafe(no_mangle)]
pub extern "C" fn jagwibodu_hand_resize(h: &mut [u8], address: u64, size: u64) -> u64
    ensures { Numbered (Resizes hand h.old address size) result h.new }
{
    numbering::resize::<Hand>(h, address, size)
}

#[unsafe(no_mangle)]
pub extern "C" fn jagwibodu_hand_sweep(h: &mut [u8]) -> u64
    ensures { Numbered (Sweeps hand h.old) result h.new }
{
    numbering::sweep::<Hand>(h)
}
