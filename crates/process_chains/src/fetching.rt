// What becomes of an item that may be fetched.
ghost use Rattle.std.specs.Prelude.{◌≡◌, ◌≤◌, IsTrue, IfOk, OnErr};
ghost use Rattle.crawl_kinds.specs.Address.{IsUri};
ghost use Rattle.crawl_kinds.specs.declared.event.Verdict.TheVariants.{Allowed};
ghost use Rattle.crawl_traits.specs.declared.link.LinkFault.{LinkFault as Fault};
ghost use Rattle.http_fetch.specs.Fetching.{IsBegun};
ghost use Rattle.page_spec.specs.Peer.{is_supported};
ghost use Rattle.process_chains.specs.Drafts.{Stands, draft_of, reached};

use crate::draft::{Answer, Draft};
use crate::ending::{answered, faulty, headless};
use crawl_kinds::{NoMemory, Settings, Work};
use crawl_traits::{Clock, Link};
use http_fetch::{FetchStop, Fetched, fetch};
use std::alloc::Global;

/// What a fetch that came to its end makes of the item.
fn outcome(fetched: Fetched, tries: u32) -> Draft
    ensures { result ≡ draft_of fetched tries }
{
    let Fetched {
        span,
        request,
        reply,
    } = fetched;
    match reply {
        Some(reply) => Draft::Answered(Answer {
            ending: answered(reply.status, span, tries),
            request,
            reply,
        }),
        None => Draft::Ended(headless(span, tries)),
    }
}

/// Makes the one exchange for an item, and says what becomes of it.
pub(crate) fn fetched<L: Link, C: Clock>(
    alloc: Global,
    work: &Work,
    settings: &Settings,
    link: &mut L,
    clock: &C,
) -> Result<Draft, NoMemory>
    requires address { IsUri work.now.item.uri }
    requires allowed { work.now.verdict ≡ Allowed }
    requires supported { IsTrue (is_supported settings.now work.now.item.uri) }
    ensures stands { IfOk result (Stands L.Link (C.gives clock.now) settings.now work.now link.old link.new) }
    ensures past { IfOk result (λ draft. 2 ≤ reached draft) }
    ensures begun { IsTrue (L.tells link.old) → OnErr result (IsBegun work.now.item.uri settings.now (L.exchanges link.old) (L.exchanges link.new)) }
    ensures tells { L.tells link.new ≡ L.tells link.old }
    ensures later { (fault : Fault) → L.faults link.old fault ≤ L.faults link.new fault }
{
    match fetch(alloc, link, clock, &work.item.uri, settings) {
        Ok(fetched) => Ok(outcome(fetched, work.tries)),
        Err(FetchStop::Link { fault, span }) => Ok(Draft::Ended(faulty(
            fault,
            span,
            work.tries,
            settings.max_tries,
        ))),
        Err(FetchStop::NoMemory) => Err(NoMemory),
    }
}
