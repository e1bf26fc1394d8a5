//! The outside as the crawler sees it: a source, a sink, a clock, a link to servers, and a volume of files with what
//! a crash may make of it. Each object has a count of faults that never falls, and a call fails only where it rose.
#![tactic(auto)]

mod clock;
mod fault;
mod file;
mod link;
mod stream;
mod synced_cut;
mod synced_write;
mod volume;
mod whole;

pub use clock::Clock;
pub use fault::{Failed, StoreFault};
pub use file::FileId;
pub use link::{Exchange, Link, LinkFault};
pub use stream::{Sink, Source};
pub use synced_cut::cut_synced;
pub use synced_write::write_synced;
pub use volume::Volume;
pub use whole::write_whole;
