// Allocation: a relocatable block in the lowest bay that has room, with more masters first where none is free; a fixed block at the end of the highest.
#![tactic(auto)]

pub mod fixed;
pub mod growth;
pub mod relocatable;
