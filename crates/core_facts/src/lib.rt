//! Facts of a history that settings and scopes give, over any pages: definitions, with examples that are computed from
//! them.
#![tactic(auto)]

ghost use Rattle.core_facts.specs.Laws.{RobotsAreAnswered};
ghost use Rattle.core_facts.specs.Validity.{ItemsAreValid, ValidIsComputed};
ghost use Rattle.core_facts.specs.Worked.{AreWorked};

/// What the definitions give for addresses, paths and events whose answers are known.
pub fn worked_examples()
    ensures { AreWorked }
{}

/// Whether a robots file allows an address, as it is computed for the facts, is what its rules say (RFC 9309 section 2.2.2).
pub fn robots_are_answered()
    ensures { RobotsAreAnswered }
{}

/// What the journal's lines can name is computed as valid.
pub fn valid_is_computed()
    ensures { ValidIsComputed }
{}

/// The items that seeds and finishes add are valid, whatever the job and its pages are.
pub fn items_are_valid()
    ensures { ItemsAreValid }
{}
