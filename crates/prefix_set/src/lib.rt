//! A set of prefixes, of which one that a text begins with is found.
#![tactic(auto)]

mod set;

pub use set::PrefixSet;
