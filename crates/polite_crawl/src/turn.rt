// One turn of a crawl.
ghost use Rattle.std.specs.Prelude.{◌≡◌, ◌≢◌, ◌≤◌, ◌++◌, ◌∷◌, ◌&&◌, [], ℕ, List, true, false, is_none, is_some, IsTrue, IfOk, IfSome, Ok, Err, Option, length};
ghost use Rattle.std.specs.List.{AllByRecursion, list_any};
ghost use Rattle.crawl_kinds.specs.declared.event.Event.{Event};
ghost use Rattle.crawl_kinds.specs.declared.event.TheConstants.{MAX_MS as latest};
ghost use Rattle.crawl_kinds.specs.declared.event.Verdict.TheVariants.{Allowed};
ghost use Rattle.crawl_history.specs.History.{history_of, is_session, last_time};
ghost use Rattle.core_facts.specs.CoreFacts.{is_secure};
ghost use Rattle.frontier_core.specs.Finishing.{IsFullFor};
ghost use Rattle.journal_valid.specs.Ends.{IsBody};
ghost use Rattle.process_chains.specs.Endings.{end_with};
ghost use Rattle.polite_crawl.specs.Steps.{IsLast, Readies, Refuses, Settles};
ghost use Rattle.crawl_traits.specs.Causes.{Rose};
ghost use Rattle.crawl_traits.specs.declared.link.Exchange.{Exchange};
ghost use Rattle.crawl_traits.specs.declared.link.LinkFault.{LinkFault as Fault};
ghost use Rattle.journal_valid.specs.Valid.{IsEvent};
ghost use Rattle.process_chains.specs.Ends.{world};
ghost use Rattle.recover_journal.specs.Rest.{Rests};
ghost use Rattle.visit_spec.specs.Crawled.{IsOver, IsRefused, Keeps, next_place, warc_file};
ghost use Rattle.visit_spec.specs.Visits.{Visit};
ghost use Rattle.polite_crawl.specs.Turns.{IsIdle, IsNotYet, IsUnwritten};

use crate::why::Why;
use crawl_kinds::{Edge, End, Millis, NoMemory};
use crawl_traits::{Clock, Link, Sink, Volume};
use finish_laws::{allowed_is_supported, visit_goes_on};
use frontier_core::{Answer, Emitted, Frontier, FrontierStop};
use open_crawl::OpenCrawl;
use process_chains::{Processed, process};
use std::alloc::Global;
use visit_records::{
    KeepFault, Prepared, Recorded, block_of, keep, line_of, place_after, record_of,
};

/// What a turn of a crawl came to.
#[derive(Clone, Copy, Debug, PartialEq, Eq)]
pub enum Turn {
    /// An item was handed out, processed and recorded.
    Worked,
    /// Nothing may go before a moment, where it is known, in milliseconds; nothing changed.
    Empty { next: Option<Millis> },
    /// Nothing will go any more; nothing changed.
    Over,
}

/// Brings an item to its end, with the body that is recorded of it, and makes ready what is to be written of it.
fn settle(
    alloc: Global,
    frontier: &mut Frontier,
    emitted: Emitted,
    done: &Processed,
    place: Edge,
    own: Recorded,
    now: Millis,
) -> Result<Prepared, FrontierStop>
    requires last { IsLast frontier.old emitted }
    requires tries { 1 ≤ done.now.work.tries }
    requires some { is_some own.body ≡ is_some done.now.reply }
    requires named { IfSome own.body IsBody }
    ensures settled { IfOk result (Settles frontier.old frontier.new emitted done.now own.body place own.bytes.items now) }
    ensures full { (known adds : ℕ) → result ≡ Err (FrontierStop.Full known adds)
        → IsFullFor frontier.old emitted (end_with done.now.ending own.body) now done.now.links known adds }
    ensures opened { list_any is_session frontier.old.events ≡ true → list_any is_session frontier.new.events ≡ true }
    ensures in_time { last_time (history_of frontier.new.events) ≤ latest }
{
    let before = frontier.events().len() - 1;
    let end: End = done.end_with(own.body);
    let links = done.links().as_slice();
    let event = frontier.finish(alloc, emitted, end, links, done.payload(), now)?;
    let line = line_of(alloc, &event)?;
    let frame = block_of(alloc, &frontier.events()[before..])?;
    Ok(Prepared {
        place,
        record: own.bytes,
        frame,
        line,
    })
}

/// Processes an item that was handed out, and makes ready what is to be written of it at a place.
fn work<L: Link, C: Clock>(
    alloc: Global,
    frontier: &mut Frontier,
    emitted: Emitted,
    place: Edge,
    link: &mut L,
    clock: &C,
) -> Result<Prepared, FrontierStop>
    requires last { IsLast frontier.old emitted }
    requires limit { frontier.old.settings.max_response_bytes ≤ 8388608 }
    requires tries { 1 ≤ emitted.work.tries }
    requires allowed { emitted.work.verdict ≡ Allowed → (is_secure emitted.work.item.uri && is_none frontier.old.settings.proxy) ≡ false }
    ensures ready { IfOk result (Readies (world L.Link (C.gives clock.now) frontier.old.settings link.old link.new) frontier.old frontier.new emitted place
        (L.exchanges link.old) (L.exchanges link.new)) }
    ensures full { (known adds : ℕ) → result ≡ Err (FrontierStop.Full known adds)
        → Refuses (world L.Link (C.gives clock.now) frontier.old.settings link.old link.new) frontier.old emitted place
        (L.exchanges link.old) (L.exchanges link.new) known adds }
    ensures shut { result ≢ Err FrontierStop.NoMemory → IsTrue (L.tells link.old) → L.connected link.old ≡ false → L.connected link.new ≡ false }
    ensures opened { list_any is_session frontier.old.events ≡ true → list_any is_session frontier.new.events ≡ true }
    ensures in_time { last_time (history_of frontier.new.events) ≤ latest }
    ensures tells { L.tells link.new ≡ L.tells link.old }
    ensures later { (fault : Fault) → L.faults link.old fault ≤ L.faults link.new fault }
{
    allowed_is_supported();
    let done = match process(alloc, emitted.work(), frontier.settings(), link, clock) {
        Ok(done) => done,
        Err(NoMemory) => {
            emitted.give_up();
            return Err(FrontierStop::NoMemory);
        }
    };
    let own = match record_of(alloc, frontier.settings(), place, &done) {
        Ok(own) => own,
        Err(NoMemory) => {
            emitted.give_up();
            return Err(FrontierStop::NoMemory);
        }
    };
    settle(alloc, frontier, emitted, &done, place, own, clock.now())
}

/// Hands out the item that goes first now, processes and records it: its record behind the last cited one, then one block
/// with its two events, then its line. All memory is taken and `Full` found before the first device call. Where nothing goes
/// nothing changes. After any `Err` open the crawl again.
pub fn take_turn<V: Volume, W: Sink, L: Link, C: Clock>(
    alloc: Global,
    crawl: &mut OpenCrawl,
    volume: &mut V,
    out: &mut W,
    link: &mut L,
    clock: &C,
) -> Result<Turn, Why>
    requires limit { crawl.old.frontier.settings.max_response_bytes ≤ 8388608 }
    requires valid { AllByRecursion IsEvent crawl.old.frontier.events }
    ensures worked { result ≡ Ok Turn.Worked → IsTrue (V.tells volume.old) → IsTrue (W.tells out.old)
        → length (V.contents volume.old (warc_file (next_place crawl.old.frontier))) ≡ (next_place crawl.old.frontier).end
        → (held : List Event) → Rests V.Volume crawl.old.journal volume.old held
        → (v : Visit) × Keeps V.Volume (world L.Link (C.gives clock.now) crawl.old.frontier.settings link.old link.new) crawl.old.frontier crawl.new.frontier
        held crawl.new.journal volume.old volume.new (W.written out.old) (W.written out.new) (L.exchanges link.old) (L.exchanges link.new) (v ∷ []) [] }
    ensures valid { result ≡ Ok Turn.Worked → AllByRecursion IsEvent crawl.new.frontier.events }
    ensures settings { result ≡ Ok Turn.Worked → crawl.new.frontier.settings ≡ crawl.old.frontier.settings }
    ensures shut { result ≢ Err Why.NoMemory → IsTrue (L.tells link.old) → L.connected link.old ≡ false → L.connected link.new ≡ false }
    ensures idle { IsIdle result → (crawl.new ≡ crawl.old) × (volume.new ≡ volume.old) × (out.new ≡ out.old) × (link.new ≡ link.old) }
    ensures empty { (next : Option ℕ) → result ≡ Ok (Turn.Empty next) → IsNotYet (C.gives clock.now) crawl.old.frontier next }
    ensures over { result ≡ Ok Turn.Over → IsOver (C.gives clock.now) crawl.old.frontier }
    ensures full { (known adds : ℕ) → result ≡ Err (Why.Full known adds)
        → (seen : List Exchange) × IsRefused (world L.Link (C.gives clock.now) crawl.old.frontier.settings link.old link.new) crawl.old.frontier known adds seen
        × (IsTrue (L.tells link.old) → L.exchanges link.new ≡ L.exchanges link.old ++ seen) }
    ensures unwritten { IsUnwritten result → (crawl.new.journal ≡ crawl.old.journal) × (volume.new ≡ volume.old) × (out.new ≡ out.old) }
    ensures grown { IsTrue (W.tells out.old) → (lines : List ℕ) × (W.written out.new ≡ W.written out.old ++ lines) }
    ensures tells { (V.tells volume.new ≡ V.tells volume.old) × (W.tells out.new ≡ W.tells out.old) × (L.tells link.new ≡ L.tells link.old) }
    ensures later { (V.faults volume.old ≤ V.faults volume.new) × (W.faults out.old ≤ W.faults out.new) }
    ensures later_link { (fault : Fault) → L.faults link.old fault ≤ L.faults link.new fault }
    ensures volume { result ≡ Err Why.Volume → Rose (V.faults volume.old) (V.faults volume.new) }
    ensures sink { result ≡ Err Why.Sink → Rose (W.faults out.old) (W.faults out.new) }
{
    visit_goes_on::<L, C>();
    let place = place_after(crawl.frontier.cited_end());
    let emitted = match crawl.frontier.emit(alloc, 0, clock.now()) {
        Ok(Answer::Work(emitted)) => emitted,
        Ok(Answer::Empty { next }) => return Ok(Turn::Empty { next }),
        Ok(Answer::Over) => return Ok(Turn::Over),
        Err(NoMemory) => return Err(Why::NoMemory),
    };
    let own = match work(alloc, &mut crawl.frontier, emitted, place, link, clock) {
        Ok(own) => own,
        Err(FrontierStop::Full { known, adds }) => return Err(Why::Full { known, adds }),
        Err(FrontierStop::NoMemory) => return Err(Why::NoMemory),
    };
    match keep(&mut crawl.journal, volume, out, &own) {
        Ok(()) => Ok(Turn::Worked),
        Err(KeepFault::Volume) => Err(Why::Volume),
        Err(KeepFault::Sink) => Err(Why::Sink),
    }
}
