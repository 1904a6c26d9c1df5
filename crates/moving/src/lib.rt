// What a move is made of: the new record is taken and filled, and the free block before the old one is found again.
#![tactic(auto)]

pub mod carry;
pub mod mend;
