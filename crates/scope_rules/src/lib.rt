//! Which addresses a crawl takes: the rules of a scope, made ready, decide (the decide rules of Heritrix 3).
#![tactic(auto)]

mod decider;
mod fault;
mod kinds;
mod parts;
mod pattern;
mod ready;
mod scope;
mod seeds;
mod threads;

pub use decider::{Decider, decide};
pub use fault::ScopeFault;
pub use ready::Candidate;
pub use scope::{Scope, decide_plain};
pub use scope_spec::{Decision, FreeForm, FreeText, Rule};
pub use threads::{Asked, ask_each};
