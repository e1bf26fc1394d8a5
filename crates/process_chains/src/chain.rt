// The fetch chain, run.
ghost use Rattle.std.specs.Prelude.{◌≡◌, ◌≤◌, ◌<◌, ◌^◌, IsTrue, IfOk, OnErr};
ghost use Rattle.crawl_kinds.specs.Address.{IsUri};
ghost use Rattle.crawl_kinds.specs.declared.event.Verdict.TheVariants.{Allowed};
ghost use Rattle.crawl_traits.specs.declared.link.LinkFault.{LinkFault as Fault};
ghost use Rattle.crawl_traits.specs.Causes.{Rose};
ghost use Rattle.http_fetch.specs.Fetching.{IsBegun};
ghost use Rattle.page_spec.specs.Peer.{is_supported};
ghost use Rattle.process_chains.specs.Done.{IsDone};
ghost use Rattle.process_chains.specs.Drafts.{Becomes, IsReady, IsSearched, Stands, asked, place, reached};
ghost use Rattle.process_chains.specs.Ends.{Ended, IsOfFault, world};

use crate::draft::Draft;
use crate::ending::unfetched;
use crate::fetching::fetched;
use crate::links::item_links;
use crate::processed::{Processed, processed_of};
use crate::steps::{Step, fetch_chain};
use crawl_kinds::{Copied, Listed, NoMemory, Settings, Work};
use crawl_traits::{Clock, Link};
use link_extract::Links;
use said::Said;
use std::alloc::Global;

/// Obeys the verdict.
fn ask_verdict(work: &Work, draft: Draft) -> Draft
    ensures { result ≡ asked work.now draft }
{
    match draft {
        Draft::New => match unfetched(work.verdict, work.tries) {
            Some(ending) => Draft::Ended(ending),
            None => Draft::MayFetch,
        },
        other => other,
    }
}

/// Fetches what may be fetched.
fn get_bytes<L: Link, C: Clock>(
    alloc: Global,
    work: &Work,
    settings: &Settings,
    draft: Draft,
    link: &mut L,
    clock: &C,
) -> Result<Draft, NoMemory>
    requires address { IsUri work.now.item.uri }
    requires allowed { draft ≡ Draft.MayFetch → work.now.verdict ≡ Allowed }
    requires supported { work.now.verdict ≡ Allowed → IsTrue (is_supported settings.now work.now.item.uri) }
    ensures stands { (start : L) → Stands L.Link (C.gives clock.now) settings.now work.now start link.old draft
        → IfOk result (Stands L.Link (C.gives clock.now) settings.now work.now start link.new) }
    ensures past { 1 ≤ reached draft → IfOk result (λ after. 2 ≤ reached after) }
    ensures begun { (start : L) → Stands L.Link (C.gives clock.now) settings.now work.now start link.old draft → IsTrue (L.tells start)
        → OnErr result (IsBegun work.now.item.uri settings.now (L.exchanges start) (L.exchanges link.new)) }
    ensures untouched { ¬ (work.now.verdict ≡ Allowed) → link.new ≡ link.old }
    ensures tells { L.tells link.new ≡ L.tells link.old }
    ensures later { (fault : Fault) → L.faults link.old fault ≤ L.faults link.new fault }
{
    match draft {
        Draft::MayFetch => fetched(alloc, work, settings, link, clock),
        other => Ok(other),
    }
}

/// Finds the links of a response that came.
fn find_links(alloc: Global, work: &Work, draft: Draft) -> Result<Draft, NoMemory>
    requires { IsUri work.now.item.uri }
    ensures searched { IfOk result (IsSearched work.now draft) }
    ensures past { 2 ≤ reached draft → IfOk result (λ after. 3 ≤ reached after) }
{
    match draft {
        Draft::Answered(answer) => {
            let links = item_links(alloc, &work.item, &answer.reply)?;
            Ok(Draft::Searched(answer, links))
        }
        other => Ok(other),
    }
}

/// Takes a step of the chain.
fn take_step<L: Link, C: Clock>(
    alloc: Global,
    step: Step,
    work: &Work,
    settings: &Settings,
    draft: Draft,
    link: &mut L,
    clock: &C,
) -> Result<Draft, NoMemory>
    requires address { IsUri work.now.item.uri }
    requires allowed { draft ≡ Draft.MayFetch → work.now.verdict ≡ Allowed }
    requires supported { work.now.verdict ≡ Allowed → IsTrue (is_supported settings.now work.now.item.uri) }
    ensures stands { (start : L) → Stands L.Link (C.gives clock.now) settings.now work.now start link.old draft
        → IfOk result (Stands L.Link (C.gives clock.now) settings.now work.now start link.new) }
    ensures past { place step ≤ reached draft → IfOk result (λ after. place step < reached after) }
    ensures begun { (start : L) → Stands L.Link (C.gives clock.now) settings.now work.now start link.old draft → IsTrue (L.tells start)
        → OnErr result (IsBegun work.now.item.uri settings.now (L.exchanges start) (L.exchanges link.new)) }
    ensures untouched { ¬ (work.now.verdict ≡ Allowed) → link.new ≡ link.old }
    ensures tells { L.tells link.new ≡ L.tells link.old }
    ensures later { (fault : Fault) → L.faults link.old fault ≤ L.faults link.new fault }
{
    match step {
        Step::AskVerdict => Ok(ask_verdict(work, draft)),
        Step::GetBytes => get_bytes(alloc, work, settings, draft, link, clock),
        Step::FindLinks => find_links(alloc, work, draft),
    }
}

/// What came of an item whose chain is run.
fn finished(
    alloc: Global,
    work: &Work,
    settings: &Settings,
    draft: Draft,
) -> Result<Processed, NoMemory>
    requires { IsReady work.now settings.now draft }
    ensures { IfOk result (Becomes work.now settings.now draft) }
{
    let work = work.copy()?;
    let settings = Said::of(settings);
    match draft {
        Draft::Ended(ending) => Ok(processed_of(
            work,
            settings,
            ending,
            Listed::new(alloc),
            None,
            Links::new(alloc),
        )),
        Draft::Searched(answer, links) => Ok(processed_of(
            work,
            settings,
            answer.ending,
            answer.request,
            Some(answer.reply),
            links,
        )),
        _ => unreachable!(),
    }
}

/// Which try it is: a number of 32 bits.
fn try_of(work: &Work) -> u32
    ensures is { result ≡ work.now.tries }
    ensures small { result < 2 ^ 32 }
{
    work.tries
}

/// Processes an item that was handed out: takes each step of the fetch chain, in order. Its verdict is obeyed: what may not
/// be fetched ends without touching the link, and what may be is fetched once, over one connection at most.
///
/// A fault of the link is tried again below `max_tries`, and at that try ends the item; each is named only where the
/// link's count of it rose. It fails for want of memory alone.
pub fn process<L: Link, C: Clock>(
    alloc: Global,
    work: &Work,
    settings: &Settings,
    link: &mut L,
    clock: &C,
) -> Result<Processed, NoMemory>
    requires address { IsUri work.now.item.uri }
    requires supported { work.now.verdict ≡ Allowed → IsTrue (is_supported settings.now work.now.item.uri) }
    ensures same { IfOk result (λ done. (done.work ≡ work.now) × (done.settings ≡ settings.now)) }
    ensures suits { IfOk result (λ done. Ended (world L.Link (C.gives clock.now) settings.now link.old link.new) work.now
        (L.exchanges link.old) (L.exchanges link.new) done.ending done.reply) }
    ensures done { IfOk result IsDone }
    ensures faults { IfOk result (λ done. (fault : Fault) → IsOfFault fault done.ending → Rose (L.faults link.old fault) (L.faults link.new fault)) }
    ensures begun { IsTrue (L.tells link.old) → OnErr result (IsBegun work.now.item.uri settings.now (L.exchanges link.old) (L.exchanges link.new)) }
    ensures untouched { ¬ (work.now.verdict ≡ Allowed) → link.new ≡ link.old }
    ensures tells { L.tells link.new ≡ L.tells link.old }
    ensures later { (fault : Fault) → L.faults link.old fault ≤ L.faults link.new fault }
{
    let mut draft = Draft::New;
    for step in fetch_chain() {
        draft = take_step(alloc, *step, work, settings, draft, link, clock)?;
    }
    let _ = try_of(work);
    let done = finished(alloc, work, settings, draft)?;
    Ok(done)
}
