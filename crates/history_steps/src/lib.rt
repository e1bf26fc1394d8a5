//! What one more event does to each scan of a history.
#![tactic(auto)]

ghost use Rattle.history_steps.specs.ScansStep.{ScansStep};

/// Each scan of a history with one more event, by the scan of the history and the event.
pub fn scans_step()
    ensures { ScansStep }
{}
