//! Definitions of what the rules of a scope answer and of what a sequence of them decides, with examples that are computed
//! from them.
#![tactic(auto)]

ghost use Rattle.scope_spec.specs.Worked.{AreWorked};
ghost use Rattle.scope_spec.specs.WorkedPatterns.{ArePatternsWorked};

mod rule;

pub use rule::{Decision, FreeForm, FreeText, Rule};

/// What the definitions give for candidates whose answers are known.
pub fn worked_examples()
    ensures { AreWorked }
{}

/// What the definitions give for patterns.
pub fn worked_patterns()
    ensures { ArePatternsWorked }
{}
