// Opening a crawl, and seeds that are added to it.
ghost use Rattle.std.specs.Prelude.{◌≡◌, ◌≤◌, true};
ghost use Rattle.std.specs.List.{list_any};
ghost use Rattle.crawl_kinds.specs.declared.event.TheConstants.{MAX_MS as latest};
ghost use Rattle.crawl_history.specs.History.{history_of, is_session, last_time};

use crate::begin::{add_seeds, begin};
use crate::fault::SeedsStop;
use crawl_kinds::{Items, Millis, NoMemory, Uris};
use crawl_traits::{StoreFault, Volume};
use frontier_core::Frontier;
use job_order::Job;
use recover_journal::{Journal, a_journal_at_rest, one_journal};
use std::alloc::Global;

/// A crawl that is opened: its core, and its journal. Its core has a session.
#[derive(Drop)]
pub struct OpenCrawl {
    pub frontier: Frontier,
    pub journal: Journal,
    pub ghost opened: { list_any is_session frontier.events ≡ true },
    pub ghost in_time: { last_time (history_of frontier.events) ≤ latest },
}

impl OpenCrawl {
    ghost use Rattle.std.specs.Prelude.{◌≢◌, ◌∷◌, ◌++◌, [], ℕ, List, All, length, IsTrue, OnOk, IfOk, IfErr, Err};
    ghost use Rattle.std.specs.List.{AllByRecursion};
    ghost use Rattle.crawl_kinds.specs.Address.{IsUri};
    ghost use Rattle.crawl_kinds.specs.declared.event.Event.{Event};
    ghost use Rattle.crawl_traits.specs.Causes.{Rose, HasStoreCause};
    ghost use Rattle.crawl_traits.specs.Images.{After};
    ghost use Rattle.crawl_traits.specs.Runs.{LeavesOnly, IsSettled};
    ghost use Rattle.crawl_history.specs.Facts.{Archive};
    ghost use Rattle.core_facts.specs.CoreFacts.{Pages};
    ghost use Rattle.frontier_core.specs.Standing.{Stands};
    ghost use Rattle.frontier_core.specs.Waiting.{IsWaitingList};
    ghost use Rattle.journal_valid.specs.Items.{IsItem};
    ghost use Rattle.journal_valid.specs.Valid.{IsEvent};
    ghost use Rattle.frontier_memo.specs.Fits.{AllFit};
    ghost use Rattle.recover_journal.specs.Holds.{journal_file, HoldsEvents};
    ghost use Rattle.recover_journal.specs.Rest.{OthersStay};
    ghost use Rattle.open_crawl.specs.Damage.{IsCrawlDamage};
    ghost use Rattle.open_crawl.specs.Faults.{IsDamageOf};
    ghost use Rattle.open_crawl.specs.JobFile.{IsTextOfJob};
    ghost use Rattle.open_crawl.specs.Opening.{AddsSeeds, Begins, IsTooMany};
    ghost use Rattle.open_crawl.specs.Standing.{HoldsBegun, HoldsSeeded, StandsFor};

    /// Opens the crawl of a job that a volume keeps, at this moment, in milliseconds since 1970: the events of the journal are
    /// read and folded, and one block is appended, of a session and, where there was no event, of the job's seeds. `Damaged`
    /// names the gate of the first block that is not whole, or whose body is no list of events, or in which an event can't
    /// stand after those before it. After a fault of the volume open it again.
    pub fn open<V: Volume>(
        alloc: Global,
        volume: &mut V,
        job: Job,
        now: Millis,
    ) -> Result<OpenCrawl, StoreFault>
        requires job { (text : List ℕ) × IsTextOfJob text job }
        requires forms { All IsUri job.seeds }
        ensures ok { IsTrue (V.tells volume.old) → IfOk result (λ own. (events : List Event) × (new : List Event)
            × HoldsEvents events (V.contents volume.old journal_file) × Begins job now events new × StandsFor V.Volume own volume.new (events ++ new)) }
        ensures fit { IsTrue (V.tells volume.old) → OnOk result ((events : List Event) × HoldsEvents events (V.contents volume.old journal_file) × AllFit events) }
        ensures same { IfOk result (λ own. (own.frontier.settings ≡ job.settings) × (own.frontier.scope ≡ job.scope)) }
        ensures stands { IfOk result (λ own. (pages : Pages) (a : Archive) → Stands pages a own.frontier) }
        ensures opened { IfOk result (λ own. list_any is_session own.frontier.events ≡ true) }
        ensures valid { IfOk result (λ own. AllByRecursion IsEvent own.frontier.events) }
        ensures damaged { IsTrue (V.tells volume.old) → IfErr result (IsDamageOf journal_file (λ at. IsCrawlDamage at (V.contents volume.old journal_file))) }

        // A crash at any moment of the call leaves the events of the journal, or these and what opening adds.
        ensures any_moment { (events : List Event) → IsSettled V.Volume volume.old (λ i. HoldsEvents events (i journal_file))
            → LeavesOnly V.Volume volume.old volume.new (After journal_file (HoldsBegun job now events) (V.may_leave volume.old)) }
        ensures others { IsTrue (V.tells volume.old) → OthersStay (V.contents volume.old) (V.contents volume.new) }
        ensures tells { V.tells volume.new ≡ V.tells volume.old }
        ensures cause { HasStoreCause (V.faults volume.old) (V.faults volume.new) result }
    {
        one_journal();
        let (mut journal, opened) = match Journal::open(alloc, volume) {
            Ok(both) => both,
            Err(fault) => return Err(fault),
        };
        let (frontier, block) = match begin(alloc, job, opened, now) {
            Ok(both) => both,
            Err(fault) => return Err(fault),
        };
        match journal.append(volume, &block) {
            Ok(()) => Ok(OpenCrawl { frontier, journal }),
            Err(fault) => Err(fault),
        }
    }

    /// Adds seeds to the crawl at this moment, in milliseconds since 1970, at most 200,000, and appends their event as one
    /// block. `Full` tells that more keys would be known than the job allows; then the crawl is as it was. Then and for want of
    /// memory the volume is as it was. After want of memory or a fault of the volume open the crawl again.
    pub fn add_seeds<V: Volume>(
        &mut self,
        alloc: Global,
        volume: &mut V,
        list: &Uris,
        now: Millis,
    ) -> Result<(), SeedsStop>
        requires forms { All IsUri list.now }
        requires few { length list.now ≤ 200000 }
        ensures ok { OnOk result ((events : List Event) → StandsFor V.Volume self.old volume.old events
            → (e : Event) × AddsSeeds self.old.frontier.settings self.old.frontier.scope events list.now now e
            × StandsFor V.Volume self.new volume.new (events ++ e ∷ [])) }
        ensures same { (self.new.frontier.settings ≡ self.old.frontier.settings) × (self.new.frontier.scope ≡ self.old.frontier.scope) }
        ensures stands { (pages : Pages) (a : Archive) → Stands pages a self.old.frontier → Stands pages a self.new.frontier }
        ensures full { (known adds : ℕ) → result ≡ Err (SeedsStop.Full known adds)
            → IsTooMany self.old.frontier.settings self.old.frontier.scope self.old.frontier.events list.now known adds }
        ensures as_before { (known adds : ℕ) → result ≡ Err (SeedsStop.Full known adds)
            → (self.new.frontier ≡ self.old.frontier) × (self.new.journal ≡ self.old.journal) }
        ensures kept { IfErr result (λ stop. stop ≢ SeedsStop.Volume → volume.new ≡ volume.old) }

        // A crash at any moment of the call leaves the events from before it, or these and that of the seeds.
        ensures any_moment { (events : List Event) → StandsFor V.Volume self.old volume.old events
            → LeavesOnly V.Volume volume.old volume.new
            (After journal_file (HoldsSeeded self.old.frontier.settings self.old.frontier.scope events list.now now) (V.may_leave volume.old)) }
        ensures others { IsTrue (V.tells volume.old) → OthersStay (V.contents volume.old) (V.contents volume.new) }
        ensures tells { V.tells volume.new ≡ V.tells volume.old }
        ensures later { V.faults volume.old ≤ V.faults volume.new }
        ensures cause { result ≡ Err SeedsStop.Volume → Rose (V.faults volume.old) (V.faults volume.new) }
    {
        a_journal_at_rest::<V>();
        let block = match add_seeds(alloc, &mut self.frontier, list, now) {
            Ok(block) => block,
            Err(stop) => return Err(stop),
        };
        match self.journal.append(volume, &block) {
            Ok(()) => Ok(()),
            Err(_) => Err(SeedsStop::Volume),
        }
    }

    /// The items that wait: classes in byte order, those of a class as they stand in its queue. It fails for want of memory
    /// alone.
    pub fn waiting(&self, alloc: Global) -> Result<Items, NoMemory>
        ensures list { IfOk result (IsWaitingList (history_of self.now.frontier.events)) }
        ensures items { AllByRecursion IsEvent self.now.frontier.events → IfOk result (All IsItem) }
    {
        let items = self.frontier.waiting(alloc)?;
        Ok(items)
    }
}
