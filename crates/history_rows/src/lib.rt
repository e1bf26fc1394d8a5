//! Worked examples of histories, computed from the definitions over a small world of two hosts.
#![tactic(auto)]

ghost use Rattle.history_rows.specs.Breaches.{PromisesRefuse};
ghost use Rattle.history_rows.specs.Budget.{BudgetRetires};
ghost use Rattle.history_rows.specs.Checkpoint.{SnapshotsServe};
ghost use Rattle.history_rows.specs.Least.{LeastGoes};
ghost use Rattle.history_rows.specs.Limits.{LimitsStop};
ghost use Rattle.history_rows.specs.Retries.{RetriesCount};
ghost use Rattle.history_rows.specs.Robots.{RobotsDecide};
ghost use Rattle.history_rows.specs.Sessions.{SessionsBeginAnew};
ghost use Rattle.history_rows.specs.Tickets.{TicketsGoOn};
ghost use Rattle.history_rows.specs.TwoHosts.{HostsTakeTurns};

/// A page behind its robots file, from the seed to its forty links.
pub fn tickets_go_on()
    ensures { TicketsGoOn }
{}

/// A host that has spent its budget is retired, and then the crawl is over.
pub fn budget_retires()
    ensures { BudgetRetires }
{}

/// Two hosts and their robots files take turns.
pub fn hosts_take_turns()
    ensures { HostsTakeTurns }
{}

/// What a second session forgets and what it keeps.
pub fn sessions_begin_anew()
    ensures { SessionsBeginAnew }
{}

/// Slow fetches, tries in vain and the last try.
pub fn retries_count()
    ensures { RetriesCount }
{}

/// What a page may do, by the answer for its robots file.
pub fn robots_decide()
    ensures { RobotsDecide }
{}

/// A history goes on from its snapshot as the whole one does.
pub fn snapshots_serve()
    ensures { SnapshotsServe }
{}

/// A limit of pages, bytes or seconds ends the crawl.
pub fn limits_stop()
    ensures { LimitsStop }
{}

/// The least of the adds that may go is the next.
pub fn least_goes()
    ensures { LeastGoes }
{}

/// A lost link and an early fetch break the promises.
pub fn promises_refuse()
    ensures { PromisesRefuse }
{}
