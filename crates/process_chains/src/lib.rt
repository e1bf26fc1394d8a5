//! An item that was handed out, on its way through the fetch chain: its verdict is obeyed, what may be fetched is fetched
//! once, and the links of what came are found.
#![tactic(auto)]

mod chain;
mod draft;
mod ending;
mod fetching;
mod links;
mod processed;
mod steps;

pub use chain::process;
pub use ending::Ending;
pub use processed::Processed;
pub use steps::{Step, fetch_chain};
