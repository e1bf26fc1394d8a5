//! Logs of blocks with gates. A block is written behind the closed gate of the log and synced; then its gate is
//! opened and synced. So a crash at any moment leaves the blocks from before, with the new one or without.
#![tactic(auto)]

mod block;
mod blocks;
mod frame;
mod framing;
mod laws;
mod log;
mod mend;
mod whole;

pub use block::{Block, Blocks, Bytes};
pub use frame::{Frame, MOST_BODY};
pub use laws::one_reading;
pub use log::GateLog;
pub use whole::read_log;
