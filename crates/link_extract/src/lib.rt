//! The links of a response.
#![tactic(auto)]

mod joining;
mod list;
mod response;
mod source;

pub use extract_spec::Found;
pub use list::Links;
pub use response::{extract, header_refs};
