//! The journal of a crawl, as its events: a log of blocks, of which each holds the lines of one or more events. A crash at
//! any moment leaves the events from before, with those of a block that is added or without. It has one segment so far.
#![tactic(auto)]

mod events;
mod journal;
mod laws;
mod lines;
mod reading;

pub use events::Opened;
pub use journal::Journal;
pub use laws::{a_journal_at_rest, one_journal};
pub use reading::read_all;
