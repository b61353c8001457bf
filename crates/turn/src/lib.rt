// Which pages a new one drives out, and in what turn.
#![tactic(auto)]

pub mod rank;
pub mod search;
