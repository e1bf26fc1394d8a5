//! The top call: the crawler's few commands, over any volume, source, output, links and clock.
#![tactic(auto)]

mod crawl;
mod top;

pub use top::{Ran, run};
