//! The outside in memory: a source, a sink, a volume, a clock and a link, which tell what they hold. Their calls are
//! numbered from 1, and those of a list fail.
#![tactic(auto)]

mod call;
mod clock;
mod exchanges;
mod fails;
mod file;
mod files;
mod link;
mod link_fails;
mod over;
mod page;
mod stream;
mod volume;

pub use clock::MemClock;
pub use link::MemLink;
pub use page::{Page, Site};
pub use stream::{MemSink, MemSource};
pub use volume::MemVolume;
