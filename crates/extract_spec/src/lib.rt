//! Definitions of the links of a response, with examples that are computed from them.
#![tactic(auto)]

ghost use Rattle.extract_spec.specs.Worked.{AreWorked};

mod found;
mod source;

pub use found::Found;
pub use source::Source;

/// What the definitions give for responses whose links are known.
pub fn worked_examples()
    ensures { AreWorked }
{}
