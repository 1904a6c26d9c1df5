// What is read of a heap that is known to be sound: its counts, and its blocks one by one.
#![tactic(auto)]

pub mod blocks;
pub mod counting;
pub mod heap;
pub mod stepping;
