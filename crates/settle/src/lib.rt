// Cells settled in the bytes of a zone are those of the structure with these cells: laws alone.
#![tactic(auto)]

pub mod surgery;
