// Free: a block by its handle, a fixed block by its pointer.
#![tactic(auto)]

pub mod handle;
pub mod pointer;
