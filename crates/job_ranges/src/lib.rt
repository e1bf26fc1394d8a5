//! The law of the ranges of every job, whatever its text.
#![tactic(auto)]

ghost use Rattle.job_ranges.specs.Laws.{JobIsInRange};

/// The text of every job is neither empty nor too long, its settings are within their ranges, and its seeds are few enough
/// and no more than its keys.
pub fn job_is_in_range()
    ensures { JobIsInRange }
{}
