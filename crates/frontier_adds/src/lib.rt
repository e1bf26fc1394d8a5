//! What the seeds of a crawl and the ends of its items add, by what is kept of keys.
#![tactic(auto)]

mod adds;
mod candidates;
mod fetched;

pub use adds::{finish_adds, new_keys, seed_adds};
pub use candidates::is_prerequisite;
