// The bytes of a well-formed zone, opened once for all reading: its blocks one after the other, and where a named block's data lie.
#![tactic(auto)]

pub mod locate;
pub mod opened;
pub mod row;
pub mod rows;

pub use opened::{Sought, Zone};
