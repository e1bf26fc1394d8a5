//! Reads a job text: its settings, its seeds and the scope of its rules, or why it is none.
#![tactic(auto)]

mod list;
mod missing;
mod names;
mod numbers;
mod read;
mod rule;
mod rule_names;
mod settings;
mod table;
mod texts;
mod unknown;
mod values;

pub use job_spec::{JobFault, Name};
pub use read::Job;
