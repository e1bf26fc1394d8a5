//! The rules of robots files (RFC 9309, in a stated profile): what a file says to an agent.
#![tactic(auto)]

mod collector;
mod line;
mod matching;
mod normal;
mod path;
mod robots;
mod steps;

pub use path::robots_path;
pub use robots::Robots;
