//! The keys that a crawl has seen, each once.
#![tactic(auto)]

mod set;

pub use set::SeenSet;
