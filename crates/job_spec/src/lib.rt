//! Definitions of what a job text says and why one is refused: its names with their defaults and ranges, its settings and
//! rules, and examples that are computed from them.
#![tactic(auto)]

ghost use Rattle.job_spec.specs.Worked.{AreWorked};

mod fault;
mod rule;
mod setting;

pub use fault::{JobFault, Name};
pub use rule::{Field, Kind};
pub use setting::{Number, Range, Setting};

/// What the definitions give for tables whose answers are known.
pub fn worked_examples()
    ensures { AreWorked }
{}
