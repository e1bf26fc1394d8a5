//! What a crawl makes of the items that it hands out, as definitions: what is recorded of each, and what the files, the output
//! and the history then hold. They stand in `specs/`, with examples that are computed from them.
#![tactic(auto)]

ghost use Rattle.visit_spec.specs.Worked.{AreWorked};

/// What the definitions give for a page, its robots file and the page again; and that the output has the lines of the events.
pub fn worked_examples()
    ensures { AreWorked }
{}
