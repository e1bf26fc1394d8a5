//! The items of one host, least rank first, and how long the host is left alone after a fetch.
#![tactic(auto)]

mod laws;
mod queue;
mod wait;

pub use laws::{in_rank_order, one_order};
pub use queue::HostQueue;
pub use wait::polite_wait;
