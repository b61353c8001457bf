// The zone's end: enlarge and shrink.
#![tactic(auto)]

pub mod enlarge;
pub mod shrink;
