// What a call does once the heap is known to be as it must be.
#![tactic(auto)]

pub mod allocate;
pub mod free;
