// The calls for the console's C host: numbers and a byte slice in, refusal × 2^32 + address out.
#![tactic(auto)]

ghost use Rattle.model.specs.Shape.{wide};
ghost use Rattle.model.specs.Calls.{Initialises, Checks, Allocates, Frees, ResizesInPlace, Moves, Resizes, Sweeps};
ghost use Rattle.numbering.specs.Numbers.{Numbered};

use model::{Position, Wide};

#[unsafe(no_mangle)]
pub extern "C" fn jagwibodu_initialise(h: &mut [u8], end: u64) -> u64
    ensures { Numbered (Initialises wide h.old end) result h.new }
{
    numbering::initialise::<Wide>(h, Position(end as usize))
}

#[unsafe(no_mangle)]
pub extern "C" fn jagwibodu_check(h: &[u8]) -> u64
    ensures { Numbered (Checks wide h.now) result h.now }
{
    numbering::check::<Wide>(h)
}

#[unsafe(no_mangle)]
pub extern "C" fn jagwibodu_allocate(h: &mut [u8], size: u64) -> u64
    ensures { Numbered (Allocates wide h.old size) result h.new }
{
    numbering::allocate::<Wide>(h, size)
}

#[unsafe(no_mangle)]
pub extern "C" fn jagwibodu_free(h: &mut [u8], address: u64) -> u64
    ensures { Numbered (Frees wide h.old address) result h.new }
{
    numbering::free::<Wide>(h, address)
}

#[unsafe(no_mangle)]
pub extern "C" fn jagwibodu_resize_in_place(h: &mut [u8], address: u64, size: u64) -> u64
    ensures { Numbered (ResizesInPlace wide h.old address size) result h.new }
{
    numbering::resize_in_place::<Wide>(h, address, size)
}

#[unsafe(no_mangle)]
pub extern "C" fn jagwibodu_move(h: &mut [u8], address: u64, size: u64) -> u64
    ensures { Numbered (Moves wide h.old address size) result h.new }
{
    numbering::relocate::<Wide>(h, address, size)
}

#[unsafe(no_mangle)]
pub extern "C" fn jagwibodu_resize(h: &mut [u8], address: u64, size: u64) -> u64
    ensures { Numbered (Resizes wide h.old address size) result h.new }
{
    numbering::resize::<Wide>(h, address, size)
}

#[unsafe(no_mangle)]
pub extern "C" fn jagwibodu_sweep(h: &mut [u8]) -> u64
    ensures { Numbered (Sweeps wide h.old) result h.new }
{
    numbering::sweep::<Wide>(h)
}
