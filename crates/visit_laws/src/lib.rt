//! Visits behind visits: where the next record goes, and that what each keeps all keep together.
#![tactic(auto)]

ghost use Rattle.visit_laws.specs.Laws.{VisitLaws};

use crawl_traits::{Clock, Link, Volume};
use history_steps::scans_step;

/// The next record goes behind those of the visits, into the same file, which ends there; and visits that were kept behind
/// visits that were kept are kept together. The worlds are those of a link and a clock, since no clause ranges over all worlds.
pub fn visits_go_on<V: Volume, L: Link, C: Clock>()
    ensures { VisitLaws V.Volume L.Link C.gives }
{
    scans_step();
}
