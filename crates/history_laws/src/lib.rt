//! The laws of every history of a crawl, whatever its facts and its archive are.
#![tactic(auto)]

ghost use Rattle.history_laws.specs.Laws.{LegalIsComplete, LegalIsPolite, QueuesHoldOnce, UnnamedStays, NoneOutTwice};

/// Every legal history is complete: each seed and link in scope that it found is done, or waits in one queue.
pub fn legal_is_complete()
    ensures { LegalIsComplete }
{}

/// Every legal history is polite: no host is asked before its time, and none twice at once.
pub fn legal_is_polite()
    ensures { LegalIsPolite }
{}

/// A key that waits stands in the queues once, and every other key in none.
pub fn queues_hold_once()
    ensures { QueuesHoldOnce }
{}

/// Events that do not name a key leave its place, and those that name none leave every queue.
pub fn unnamed_stays()
    ensures { UnnamedStays }
{}

/// No class has two emits out.
pub fn none_out_twice()
    ensures { NoneOutTwice }
{}
