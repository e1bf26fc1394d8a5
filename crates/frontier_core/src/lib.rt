//! The core of a crawl as a state machine over its history: the list of its events, beside what is asked of them most.
#![tactic(auto)]

mod choosing;
mod emitted;
mod frontier;
mod robots;
mod stop;
mod waiting;

pub use emitted::{Answer, Emitted, held_laws};
pub use frontier::Frontier;
pub use frontier_memo::FoldFault;
pub use robots::standing_laws;
pub use stop::FrontierStop;
