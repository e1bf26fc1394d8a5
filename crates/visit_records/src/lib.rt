//! What is written of an item that was handed out and came to its end: its record into a WARC file, the block of its events into
//! the journal, its line to the output.
#![tactic(auto)]

mod block;
mod keeping;
mod line;
mod record;

pub use block::block_of;
pub use keeping::{KeepFault, Prepared, cut_back, keep};
pub use line::line_of;
pub use record::{Recorded, place_after, record_of};
