// The events with which a crawl is opened, and those of seeds.
ghost use Rattle.std.specs.Prelude.{◌≡◌, ◌<◌, ◌≤◌, ◌≢◌, ◌∷◌, ◌++◌, [], ℕ, List, All, length, drop, slice_get, true, OnOk, IfOk, IfErr, Err, Some};
ghost use Rattle.std.specs.List.{list_any, AllByRecursion};
ghost use Rattle.crawl_kinds.specs.Address.{IsUri};
ghost use Rattle.crawl_kinds.specs.declared.event.Event.{Event as Happening};
ghost use Rattle.crawl_kinds.specs.declared.event.TheConstants.{MAX_MS as latest};
ghost use Rattle.crawl_history.specs.Facts.{Archive};
ghost use Rattle.crawl_history.specs.History.{history_of, is_session, last_time};
ghost use Rattle.core_facts.specs.CoreFacts.{Pages};
ghost use Rattle.frontier_core.specs.Standing.{Stands};
ghost use Rattle.frontier_memo.specs.Fits.{AllFit};
ghost use Rattle.journal_valid.specs.Valid.{IsEvent, IsSpelled};
ghost use Rattle.recover_journal.specs.Holds.{journal_file};
ghost use Rattle.open_crawl.specs.Damage.{IsUnfitAt};
ghost use Rattle.open_crawl.specs.Faults.{IsDamageOf};
ghost use Rattle.open_crawl.specs.JobFile.{IsTextOfJob};
ghost use Rattle.open_crawl.specs.Opening.{next_session, AddsSeeds, Begins, IsTooMany, FitsBlock};

use crate::fault::SeedsStop;
use core_facts::items_are_valid;
use crawl_kinds::{Copied, Event, MAX_MS, Millis, NoMemory, Settings, Uris};
use crawl_traits::{FileId, StoreFault};
use frontier_core::{FoldFault, Frontier, FrontierStop, standing_laws};
use gate_log::Frame;
use job_order::Job;
use job_ranges::job_is_in_range;
use recover_journal::{Journal, Opened};
use scope_rules::Scope;
use std::alloc::Global;

/// The greatest time of events, or 0 where there is none.
fn last_time(events: &[Event]) -> Millis
    ensures { result ≡ last_time (history_of events.now) }
{
    let mut time = 0;
    for event in events {
        time = time.max(event.time());
    }
    time
}

/// A session of the job at this moment, behind these events: no earlier than any of them.
fn session_after(settings: &Settings, events: &[Event], now: Millis) -> Result<Event, NoMemory>
    ensures { IfOk result (λ e. e ≡ next_session settings.now events.now now) }
{
    Ok(Event::Session {
        time: last_time(events).max(now.min(MAX_MS)),
        job: settings.name.copy()?,
        format: 1,
    })
}

/// The damage of a journal, at the gate of the event at this index.
fn damage_at(gates: &[u64], index: usize) -> StoreFault
    requires { index < length gates.now }
    ensures is { IsDamageOf journal_file (λ at. slice_get gates.now index ≡ Some at) result }
    ensures no_fault { result ≢ StoreFault.Volume }
{
    StoreFault::Damaged {
        file: FileId::Journal(0),
        at: gates[index],
    }
}

/// The core after the events of a journal and this session. An event of the journal that can't stand is damage at the gate
/// of its block.
fn fold_opened(
    alloc: Global,
    settings: Settings,
    scope: Scope,
    opened: Opened,
    session: Event,
) -> Result<Frontier, StoreFault>
    requires session { is_session session ≡ true }
    requires gates { length opened.gates ≡ length opened.events }
    ensures core { IfOk result (λ core. (core.settings ≡ settings) × (core.scope ≡ scope) × (core.events ≡ opened.events ++ session ∷ [])) }
    ensures stands { IfOk result (λ core. (pages : Pages) (a : Archive) → Stands pages a core) }
    ensures fit { OnOk result (AllFit opened.events) }
    ensures unfit { IfErr result (IsDamageOf journal_file (IsUnfitAt opened.events opened.gates)) }
    ensures no_fault { result ≢ Err StoreFault.Volume }
{
    standing_laws();
    let Opened { events, gates } = opened;
    let mut events = events.into_vec();
    events.push(session)?;
    match Frontier::fold(alloc, settings, scope, events) {
        Ok(frontier) => Ok(frontier),
        Err(FoldFault::NotAStep { index }) => Err(damage_at(gates.as_slice(), index)),
        Err(FoldFault::NoMemory) => Err(StoreFault::NoMemory),
    }
}

/// Adds the seeds of a job to a core that has a session alone. There is room for them: a job has no more seeds than it allows
/// keys.
fn add_first(
    alloc: Global,
    frontier: &mut Frontier,
    seeds: &Uris,
    now: Millis,
) -> Result<(), NoMemory>
    requires forms { All IsUri seeds.now }
    requires session { (e : Happening) × (frontier.old.events ≡ e ∷ []) × (is_session e ≡ true) }
    requires room { length seeds.now ≤ frontier.old.settings.max_keys }
    ensures added { OnOk result ((e : Happening) × AddsSeeds frontier.old.settings frontier.old.scope frontier.old.events seeds.now now e
        × (frontier.new.events ≡ frontier.old.events ++ e ∷ [])) }
    ensures same { OnOk result ((frontier.new.settings ≡ frontier.old.settings) × (frontier.new.scope ≡ frontier.old.scope)) }
    ensures stands { OnOk result ((pages : Pages) (a : Archive) → Stands pages a frontier.old → Stands pages a frontier.new) }
{
    standing_laws();
    match frontier.seeds(alloc, seeds, now) {
        Ok(_) => {}
        Err(FrontierStop::Full { .. }) => unreachable!(),
        Err(FrontierStop::NoMemory) => return Err(NoMemory),
    }
    Ok(())
}

/// The core of a crawl that is opened at a moment: after the events of its journal a session and, where there was no event,
/// the job's seeds.
fn begin_core(alloc: Global, job: Job, opened: Opened, now: Millis) -> Result<Frontier, StoreFault>
    requires job { (text : List ℕ) × IsTextOfJob text job }
    requires forms { All IsUri job.seeds }
    requires gates { length opened.gates ≡ length opened.events }
    ensures begun { IfOk result (λ core. (new : List Happening) × Begins job now opened.events new × (core.events ≡ opened.events ++ new)) }
    ensures same { IfOk result (λ core. (core.settings ≡ job.settings) × (core.scope ≡ job.scope)) }
    ensures stands { IfOk result (λ core. (pages : Pages) (a : Archive) → Stands pages a core) }
    ensures fit { OnOk result (AllFit opened.events) }
    ensures unfit { IfErr result (IsDamageOf journal_file (IsUnfitAt opened.events opened.gates)) }
    ensures no_fault { result ≢ Err StoreFault.Volume }
{
    job_is_in_range();
    let Job {
        settings,
        seeds,
        scope,
    } = job;
    let is_new = opened.events.as_slice().is_empty();
    let session = session_after(&settings, opened.events.as_slice(), now)?;
    let mut frontier = fold_opened(alloc, settings, scope, opened, session)?;
    if !is_new {
        return Ok(frontier);
    }
    add_first(alloc, &mut frontier, &seeds, now)?;
    Ok(frontier)
}

/// The block of the events from this one on.
fn block_from(alloc: Global, events: &[Event], from: usize) -> Result<Frame, NoMemory>
    requires inside { from ≤ length events.now }
    requires fits { FitsBlock (drop from events.now) }
    ensures { IfOk result (λ body. IsSpelled (drop from events.now) body) }
{
    Journal::block(alloc, &events[from..])
}

/// The core of a crawl that is opened at a moment, and the block of the events that it has more than its journal.
pub fn begin(
    alloc: Global,
    job: Job,
    opened: Opened,
    now: Millis,
) -> Result<(Frontier, Frame), StoreFault>
    requires job { (text : List ℕ) × IsTextOfJob text job }
    requires forms { All IsUri job.seeds }
    requires valid { AllByRecursion IsEvent opened.events }
    requires gates { length opened.gates ≡ length opened.events }
    ensures begun { IfOk result (λ r. (new : List Happening) × Begins job now opened.events new × (r.0.events ≡ opened.events ++ new) × IsSpelled new r.1) }
    ensures same { IfOk result (λ r. (r.0.settings ≡ job.settings) × (r.0.scope ≡ job.scope)) }
    ensures stands { IfOk result (λ r. (pages : Pages) (a : Archive) → Stands pages a r.0) }
    ensures opened { IfOk result (λ r. list_any is_session r.0.events ≡ true) }
    ensures in_time { IfOk result (λ r. last_time (history_of r.0.events) ≤ latest) }
    ensures valid { IfOk result (λ r. AllByRecursion IsEvent r.0.events) }
    ensures fit { OnOk result (AllFit opened.events) }
    ensures unfit { IfErr result (IsDamageOf journal_file (IsUnfitAt opened.events opened.gates)) }
    ensures no_fault { result ≢ Err StoreFault.Volume }
{
    job_is_in_range();
    items_are_valid();
    let before = opened.events.as_slice().len();
    let frontier = begin_core(alloc, job, opened, now)?;
    let block = block_from(alloc, frontier.events(), before)?;
    Ok((frontier, block))
}

/// Adds seeds to a core, and gives the block of their event.
pub fn add_seeds(
    alloc: Global,
    frontier: &mut Frontier,
    list: &Uris,
    now: Millis,
) -> Result<Frame, SeedsStop>
    requires forms { All IsUri list.now }
    requires few { length list.now ≤ 200000 }
    requires opened { list_any is_session frontier.old.events ≡ true }
    requires in_time { last_time (history_of frontier.old.events) ≤ latest }
    ensures added { IfOk result (λ block. (e : Happening) × AddsSeeds frontier.old.settings frontier.old.scope frontier.old.events list.now now e
        × (frontier.new.events ≡ frontier.old.events ++ e ∷ []) × IsSpelled (e ∷ []) block) }
    ensures same { (frontier.new.settings ≡ frontier.old.settings) × (frontier.new.scope ≡ frontier.old.scope) }
    ensures stands { (pages : Pages) (a : Archive) → Stands pages a frontier.old → Stands pages a frontier.new }
    ensures opened { list_any is_session frontier.new.events ≡ true }
    ensures in_time { last_time (history_of frontier.new.events) ≤ latest }
    ensures full { (known adds : ℕ) → result ≡ Err (SeedsStop.Full known adds)
        → IsTooMany frontier.old.settings frontier.old.scope frontier.old.events list.now known adds }
    ensures as_before { (known adds : ℕ) → result ≡ Err (SeedsStop.Full known adds) → frontier.new ≡ frontier.old }
    ensures no_fault { result ≢ Err SeedsStop.Volume }
{
    standing_laws();
    items_are_valid();
    let before = frontier.events().len();
    match frontier.seeds(alloc, list, now) {
        Ok(_) => {}
        Err(FrontierStop::Full { known, adds }) => return Err(SeedsStop::Full { known, adds }),
        Err(FrontierStop::NoMemory) => return Err(SeedsStop::NoMemory),
    }
    match block_from(alloc, frontier.events(), before) {
        Ok(block) => Ok(block),
        Err(_) => Err(SeedsStop::NoMemory),
    }
}
