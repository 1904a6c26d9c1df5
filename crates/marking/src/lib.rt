// The marks of free items: the map of bits that they stand in, and the marking of a page's items.
#![tactic(auto)]

pub mod map;
pub mod pages;
