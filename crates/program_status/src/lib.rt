//! How a command ends: its status, and the line that says it, which is written without taking memory.
#![tactic(auto)]

mod line;
mod pieces;
mod status;

pub use line::say;
pub use status::Status;
