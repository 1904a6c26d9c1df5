// Resize, once the heap is known to be as it must be: where the record stands, or by a move, or as it is.
#![tactic(auto)]

pub mod resize;
