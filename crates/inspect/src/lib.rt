// What the blocks of a zone are: a walker from block to block, and a census of the free ones.
#![tactic(auto)]

pub mod census;
pub mod strata;
pub mod walker;
