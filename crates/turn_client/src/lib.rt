//! A small client of the turn lock: callers in threads of their own add to one total, at a turn lock or at a `Mutex` of std.
#![tactic(auto)]

mod callers;
mod part;
mod share;
mod tally;

pub use callers::{count_under_mutex, count_up};
