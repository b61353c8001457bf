// Room: the lowest bay that has it and a hole there for a new block, and bytes off the end of a bay; the bay is compacted first where that is
// needed.
#![tactic(auto)]

pub mod bay_end;
pub mod place;
