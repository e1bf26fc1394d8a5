// How an item that was handed out ends.
ghost use Rattle.std.specs.Prelude.{◌≡◌};
ghost use Rattle.process_chains.specs.Endings as endings;

use crawl_kinds::{Body, End, Fetch, Notes, Outcome, Verdict};
use crawl_traits::LinkFault;

/// How an item ends: an end, but for what is recorded of a response.
#[derive(Clone, Copy, Debug)]
pub struct Ending {
    pub outcome: Outcome,
    pub code: i32,
    pub fetch: Option<Fetch>,
    pub notes: Notes,
}

/// An ending at a try number, of a cause.
fn ended(outcome: Outcome, code: i32, fetch: Option<Fetch>, tries: u32, cause: i32) -> Ending
    ensures { result ≡ endings.ending outcome code fetch tries cause }
{
    Ending {
        outcome,
        code,
        fetch,
        notes: Notes {
            cut: None,
            tries,
            cause,
        },
    }
}

/// The code of a link's fault.
fn code_of(fault: LinkFault) -> i32
    ensures { result ≡ endings.code_of fault }
{
    match fault {
        LinkFault::Refused => -2,
        LinkFault::Lost => -3,
        LinkFault::TimedOut => -4,
    }
}

/// The one ending under a verdict that allows no fetch.
pub(crate) fn unfetched(verdict: Verdict, tries: u32) -> Option<Ending>
    ensures { result ≡ endings.unfetched verdict tries }
{
    match verdict {
        Verdict::Allowed => None,
        Verdict::Unsupported => Some(ended(Outcome::Failure, -7, None, tries, 0)),
        Verdict::Needed => Some(ended(Outcome::Retry, -50, None, tries, 0)),
        Verdict::Unreachable => Some(ended(Outcome::Failure, -61, None, tries, 0)),
        Verdict::Precluded => Some(ended(Outcome::Disregard, -9998, None, tries, 0)),
    }
}

/// The ending where a fault of the link ended the fetch: it is tried again, unless that was the last try.
pub(crate) fn faulty(fault: LinkFault, span: Fetch, tries: u32, max_tries: u32) -> Ending
    ensures { result ≡ endings.faulty fault span tries max_tries }
{
    if tries < max_tries {
        ended(Outcome::Retry, code_of(fault), Some(span), tries, 0)
    } else {
        ended(Outcome::Failure, -8, Some(span), tries, code_of(fault))
    }
}

/// The ending where no whole response came.
pub(crate) fn headless(span: Fetch, tries: u32) -> Ending
    ensures { result ≡ endings.headless span tries }
{
    ended(Outcome::Failure, -404, Some(span), tries, 0)
}

/// The ending where a whole response came.
pub(crate) fn answered(status: u16, span: Fetch, tries: u32) -> Ending
    ensures { result ≡ endings.answered status span tries }
{
    ended(Outcome::Success, i32::from(status), Some(span), tries, 0)
}

/// The end with an ending and a body.
pub(crate) fn end_of(ending: &Ending, body: Option<Body>) -> End
    ensures { result ≡ endings.end_with ending.now body }
{
    End {
        outcome: ending.outcome,
        code: ending.code,
        fetch: ending.fetch,
        body,
        notes: ending.notes,
    }
}
