//! Definitions of keys, SURT forms, classes and prefixes of addresses, with examples that are computed from them.
#![tactic(auto)]

ghost use Rattle.uri_spec.specs.Worked.{AreWorked};

/// What the definitions give for addresses whose answers are known.
pub fn worked_examples()
    ensures { AreWorked }
{}
