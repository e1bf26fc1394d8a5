//! Which events the journal's lines can name, format 1: definitions, with examples that are computed from them.
#![tactic(auto)]

ghost use Rattle.journal_valid.specs.Worked.{AreWorked};

/// What the definitions give for addresses, paths and codes whose answers are known.
pub fn worked_examples()
    ensures { AreWorked }
{}
