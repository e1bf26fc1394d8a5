//! What was processed, against the pages and the history of its crawl: what the core asks of the end of an item holds of it, and
//! so a legal history goes on with each visit.
#![tactic(auto)]

ghost use Rattle.finish_laws.specs.Going.{AllowedIsSupported, VisitGoesOn};
ghost use Rattle.finish_laws.specs.Laws.{ProcessedMayEnd};

use core_facts::valid_is_computed;
use crawl_traits::{Clock, Link};
use history_steps::scans_step;

/// Whatever the pages are that agree with the definitions, and whatever archive has the block of what was recorded: links and
/// payload of what was processed are those of the pages, and with the record behind the last cited one its end may stand in
/// the history.
pub fn processed_may_end()
    ensures { ProcessedMayEnd }
{
    valid_is_computed();
}

/// A legal history is legal with a visit behind it, and what the core keeps of robots files still says the same. It is of any
/// link and clock, since no clause ranges over all that work may be processed under.
pub fn visit_goes_on<L: Link, C: Clock>()
    ensures { VisitGoesOn L.Link C.gives }
{
    scans_step();
    processed_may_end();
}

/// An address that is not of https, or has a proxy, can be asked for.
pub fn allowed_is_supported()
    ensures { AllowedIsSupported }
{}
