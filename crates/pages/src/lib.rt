// Pages by their names: the calls that place no block.
#![tactic(auto)]

pub mod drop;
pub mod status;
