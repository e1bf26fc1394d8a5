//! A crawl that was opened and goes on: its history is legal from the start, and the WARC files hold what it recorded.
#![tactic(auto)]

ghost use Rattle.crawl_laws.specs.Laws.{OpeningGoesOn, VisitsAreHeld};

use core_facts::{items_are_valid, valid_is_computed};
use crawl_facts::what_is_written_is_held;
use crawl_traits::{Clock, Link};
use frontier_memo::keys_grow;
use history_steps::scans_step;
use job_ranges::job_is_in_range;

/// What opening adds to a legal history, a session and at first the job's seeds, are steps of it.
pub fn opening_goes_on()
    ensures { OpeningGoesOn }
{
    job_is_in_range();
    items_are_valid();
    valid_is_computed();
    keys_grow();
}

/// Every archive of the WARC files has the blocks of visits whose records were written behind what was there, and whose events
/// a journal holds. It is of any link and clock, since no clause ranges over all that work may be processed under.
pub fn visits_are_held<L: Link, C: Clock>()
    ensures { VisitsAreHeld L.Link C.gives }
{
    scans_step();
    what_is_written_is_held();
}
