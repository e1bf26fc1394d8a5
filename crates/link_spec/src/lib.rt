//! References in texts: their type, and in `specs/` which references a page, a style sheet and a script have.
#![tactic(auto)]

ghost use Rattle.link_spec.specs.Laws.{EachIsCutOnce};
ghost use Rattle.link_spec.specs.Worked.{AreWorked};

mod page;
mod reference;
pub mod scan;

pub use page::{Attribute, Element, Name, Role};
pub use reference::{Ref, Refs};

/// Each text is cut into pieces in exactly one way.
pub fn each_text_is_cut_once()
    ensures { EachIsCutOnce }
{}

/// What the definitions give for texts whose references are known.
pub fn worked_examples()
    ensures { AreWorked }
{}
