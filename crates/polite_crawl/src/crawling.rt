// The crawl: turn after turn, until it is over.
ghost use Rattle.std.specs.Prelude.{◌≡◌, ◌≤◌, ◌++◌, [], ℕ, List, IsTrue, OnOk, Ok, Err, length};
ghost use Rattle.std.specs.List.{AllByRecursion};
ghost use Rattle.crawl_kinds.specs.declared.event.Event.{Event};
ghost use Rattle.crawl_traits.specs.Causes.{Rose};
ghost use Rattle.crawl_traits.specs.declared.link.Exchange.{Exchange};
ghost use Rattle.crawl_traits.specs.declared.link.LinkFault.{LinkFault as Fault};
ghost use Rattle.frontier_core.specs.Core.{Core};
ghost use Rattle.journal_valid.specs.Valid.{IsEvent};
ghost use Rattle.process_chains.specs.Ends.{world};
ghost use Rattle.recover_journal.specs.Rest.{Rests};
ghost use Rattle.visit_spec.specs.Crawled.{IsOver, IsRefused, Keeps, next_place, warc_file};
ghost use Rattle.visit_spec.specs.Visits.{Visit};

use crate::turn::{Turn, take_turn};
use crate::why::Why;
use crawl_kinds::Millis;
use crawl_traits::{Clock, Failed, Link, Sink, Volume};
use open_crawl::OpenCrawl;
use std::alloc::Global;
use visit_laws::visits_go_on;
use visit_records::{cut_back, place_after};

/// How long it rests where nothing tells when an item may go, in milliseconds.
const SHORT_REST: Millis = 100;

/// How a crawl that met no fault ended.
#[derive(Clone, Copy, Debug, PartialEq, Eq)]
pub enum Ended {
    /// Nothing will go any more.
    Over,
    /// It made all its turns, and something may still go.
    Spent,
}

/// Rests until a moment, or a short while.
fn rest_until<C: Clock>(clock: &C, next: Option<Millis>) {
    match next {
        Some(next) => clock.rest(next.saturating_sub(clock.now())),
        None => clock.rest(SHORT_REST),
    }
}

/// Crawls politely with one worker, until it is over, for at most so many turns: a turn hands an item out and records it, or
/// rests by the clock, which may stand still. What stands in the WARC file behind the last cited record is cut off first. It
/// stops at the first fault of the volume or of the output, for want of memory, and where more keys would be known than the
/// job allows; a fault of the link ends its item.
pub fn crawl<V: Volume, W: Sink, L: Link, C: Clock>(
    alloc: Global,
    crawl: &mut OpenCrawl,
    volume: &mut V,
    out: &mut W,
    link: &mut L,
    clock: &C,
    turns: u64,
) -> Result<Ended, Why>
    requires limit { crawl.old.frontier.settings.max_response_bytes ≤ 8388608 }
    requires valid { AllByRecursion IsEvent crawl.old.frontier.events }
    ensures done { IsTrue (V.tells volume.old) → IsTrue (W.tells out.old)
        → (next_place crawl.old.frontier).end ≤ length (V.contents volume.old (warc_file (next_place crawl.old.frontier)))
        → (held : List Event) → Rests V.Volume crawl.old.journal volume.old held
        → OnOk result ((visits : List Visit)
        × Keeps V.Volume (world L.Link (C.gives clock.now) crawl.old.frontier.settings link.old link.new) crawl.old.frontier crawl.new.frontier held
        crawl.new.journal volume.old volume.new (W.written out.old) (W.written out.new) (L.exchanges link.old) (L.exchanges link.new) visits []) }
    ensures over { result ≡ Ok Ended.Over → IsOver (C.gives clock.now) crawl.new.frontier }
    ensures full { (known adds : ℕ) → result ≡ Err (Why.Full known adds) → IsTrue (V.tells volume.old) → IsTrue (W.tells out.old)
        → (next_place crawl.old.frontier).end ≤ length (V.contents volume.old (warc_file (next_place crawl.old.frontier)))
        → (held : List Event) → Rests V.Volume crawl.old.journal volume.old held
        → (visits : List Visit) × (core : Core) × (seen : List Exchange)
        × Keeps V.Volume (world L.Link (C.gives clock.now) crawl.old.frontier.settings link.old link.new) crawl.old.frontier core held
        crawl.new.journal volume.old volume.new (W.written out.old) (W.written out.new) (L.exchanges link.old) (L.exchanges link.new) visits seen
        × IsRefused (world L.Link (C.gives clock.now) crawl.old.frontier.settings link.old link.new) core known adds seen }
    ensures grown { IsTrue (W.tells out.old) → (lines : List ℕ) × (W.written out.new ≡ W.written out.old ++ lines) }
    ensures tells { (V.tells volume.new ≡ V.tells volume.old) × (W.tells out.new ≡ W.tells out.old) × (L.tells link.new ≡ L.tells link.old) }
    ensures later { (V.faults volume.old ≤ V.faults volume.new) × (W.faults out.old ≤ W.faults out.new) }
    ensures later_link { (fault : Fault) → L.faults link.old fault ≤ L.faults link.new fault }
    ensures volume { result ≡ Err Why.Volume → Rose (V.faults volume.old) (V.faults volume.new) }
    ensures sink { result ≡ Err Why.Sink → Rose (W.faults out.old) (W.faults out.new) }
{
    visits_go_on::<V, L, C>();
    match cut_back(volume, place_after(crawl.frontier.cited_end())) {
        Ok(()) => {}
        Err(Failed) => return Err(Why::Volume),
    }
    for _ in 0..turns {
        let turn = match take_turn(alloc, crawl, volume, out, link, clock) {
            Ok(turn) => turn,
            Err(why) => return Err(why),
        };
        match turn {
            Turn::Worked => {}
            Turn::Empty { next } => rest_until(clock, next),
            Turn::Over => return Ok(Ended::Over),
        }
    }
    Ok(Ended::Spent)
}
