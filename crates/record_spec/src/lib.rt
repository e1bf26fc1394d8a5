//! Definitions of WARC records, with examples that are computed from them.
#![tactic(auto)]

mod laws;
mod naming;

pub use laws::{a_moment_has_one_date, worked_examples};
pub use naming::Naming;
