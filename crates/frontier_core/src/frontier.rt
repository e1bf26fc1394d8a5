// The core.
ghost use Rattle.std.specs.Prelude.{◌≡◌, ◌≤◌, ◌<◌, ◌+◌, ◌&&◌, ℕ, true, false, [], All, IfOk, IsTrue, OnOk, OnErr, Err, is_none, length, option_map};
ghost use Rattle.std.specs.List.{AllByRecursion, list_all, list_any};
ghost use Rattle.crawl_kinds.specs.Address.{IsUri};
ghost use Rattle.crawl_kinds.specs.Event.{Finishing, adds_of};
ghost use Rattle.crawl_kinds.specs.declared.event.Verdict.TheVariants.{Allowed};
ghost use Rattle.crawl_history.specs.Adds as history_adds;
ghost use Rattle.crawl_history.specs.Facts.{Archive};
ghost use Rattle.crawl_history.specs.Citations.{cited_end};
ghost use Rattle.crawl_history.specs.Emission as emission;
ghost use Rattle.crawl_history.specs.History.{is_session, last_time, ticket_count};
ghost use Rattle.crawl_history.specs.Places as places;
ghost use Rattle.crawl_history.specs.Steps.{last_caller, Legal, Step};
ghost use Rattle.crawl_history.specs.Verdicts as verdicts;
ghost use Rattle.core_facts.specs.CoreFacts.{Pages, is_secure};
ghost use Rattle.core_facts.specs.ValidEvent.{is_add};
ghost use Rattle.extract_spec.specs.Joining.{IsLink};
ghost use Rattle.frontier_adds.specs.Shown.{ShowsLinks};
ghost use Rattle.journal_valid.specs.Ends.{IsEnd};
ghost use Rattle.journal_valid.specs.Items.{IsAdd};
ghost use Rattle.journal_valid.specs.Valid.{IsEvent};
ghost use Rattle.frontier_core.specs.Core as core;
ghost use Rattle.frontier_core.specs.Answers.{IsSeeded, IsFull};
ghost use Rattle.frontier_core.specs.Choosing.{answer_by, IsReady};
ghost use Rattle.frontier_core.specs.Emitting.{emit_event, Answers, IsHeld, IsValidAnswer, Moves};
ghost use Rattle.frontier_core.specs.Finishing.{finish_by, IsEnded, IsFinished, IsFullFor, Shows};
ghost use Rattle.frontier_core.specs.Standing.{EndsWith, HasNoRobots, Stands};
ghost use Rattle.frontier_core.specs.Waiting.{IsWaitingList};
ghost use Rattle.frontier_memo.specs.Fits.{AllFit, EmitFits, Fits, IsFirstUnfit};
ghost use Rattle.frontier_memo.specs.Laws.{are_new};
ghost use Rattle.frontier_memo.specs.Sums.{saturated_edge};

use crate::choosing::{self, Next, next_try};
use crate::emitted::{Answer, Emitted};
use crate::robots::{KeptRobots, kept_after, put_back, verdict};
use crate::stop::FrontierStop;
use crate::waiting::queued;
use core_facts::{items_are_valid, valid_is_computed};
use crawl_kinds::{
    ClassKey, Copied, Edge, End, Event, Item, Items, Key, MAX_MS, Millis, NoMemory, Place,
    Settings, Uris, Work,
};
use extract_spec::Found;
use frontier_adds::{finish_adds, new_keys, seed_adds};
use frontier_memo::{FoldFault, Memo, Waiting, remember};
use scope_rules::Scope;
use std::alloc::Global;
use std::collections::BTreeMap;
use std::marker::Model;

/// The core of a crawl: the settings of its job, its scope and its events so far, beside what is asked of them most and
/// what the last robots file of each class said. Contracts see settings, scope, events and robots files.
#[derive(Drop)]
pub struct Frontier {
    settings: Settings,
    scope: Scope,
    events: Vec<Event>,
    memo: Memo,
    robots: BTreeMap<ClassKey, KeptRobots>,
}

impl Model for Frontier {
    ghost use Rattle.crawl_history.specs.History.{history_of};
    ghost use Rattle.frontier_core.specs.Core.{Core};

    ghost Value = { Core };

    ghost use Rattle.frontier_memo.specs.Memory.{Remembers};

    ghost view = { λ a. record { settings = a.settings; scope = a.scope; events = a.events.items; robots = a.robots.entries } };

    ghost invariant = { λ a. Remembers (history_of a.events.items) a.memo };
}

impl Frontier {
    /// The core of a job after these events, oldest first. Nothing is asked of pages: `NotAStep` tells the first event
    /// that can't stand after those before it whatever the pages were. Nothing is known of robots files, as the history
    /// has it where the last session has none.
    pub fn fold(
        alloc: Global,
        settings: Settings,
        scope: Scope,
        events: Vec<Event>,
    ) -> Result<Frontier, FoldFault>
        ensures ok { IfOk result (λ own. own ≡ record { settings = settings; scope = scope; events = events.items; robots = [] }) }
        ensures stands { IfOk result (λ own. HasNoRobots events.items → (pages : Pages) (a : Archive) → Stands pages a own) }
        ensures fit { IfOk result (λ _. AllFit events.items) }
        ensures not_a_step { (i : ℕ) → result ≡ Err (FoldFault.NotAStep i) → IsFirstUnfit events.items i }
    {
        let memo = remember(alloc, &events)?;
        Ok(Frontier {
            settings,
            scope,
            events,
            memo,
            robots: BTreeMap::new(alloc),
        })
    }

    /// The settings of the job.
    pub fn settings(&self) -> &Settings
        ensures { result.now ≡ self.now.settings }
    {
        &self.settings
    }

    /// The events so far, oldest first.
    pub fn events(&self) -> &[Event]
        ensures { result.now ≡ self.now.events }
    {
        self.events.as_slice()
    }

    /// Where a key is. It takes no memory.
    pub fn place_of(&self, key: &Key) -> Place
        ensures { result ≡ places.place_of (core.history self.now) key.now }
    {
        self.memo.place_of(key)
    }

    /// How many keys are somewhere.
    pub fn known(&self) -> u64
        ensures { result ≡ core.known_count self.now }
    {
        self.memo.known()
    }

    /// How many tickets were given.
    pub fn tickets(&self) -> u64
        ensures { result ≡ ticket_count (core.history self.now) }
    {
        self.memo.tickets
    }

    /// The time of the latest event, in milliseconds; 0 where there is none.
    pub fn last_time(&self) -> Millis
        ensures { result ≡ last_time (core.history self.now) }
    {
        self.memo.time
    }

    /// The end of the last cited record; an end that 64 bits can't hold, as no journal names it, is the greatest number.
    pub fn cited_end(&self) -> Option<Edge>
        ensures { result ≡ option_map saturated_edge (cited_end (core.history self.now)) }
    {
        self.memo.counts.end
    }

    /// The items that wait: classes in byte order, those of a class as they stand in its queue, by rank and within a rank
    /// in the order of their adds. It fails for want of memory alone.
    pub fn waiting(&self, alloc: Global) -> Result<Items, NoMemory>
        ensures { IfOk result (IsWaitingList (core.history self.now)) }
    {
        queued(alloc, &self.memo.places)
    }

    /// The time of an event at this moment.
    fn next_time(&self, now: Millis) -> Millis
        ensures { result ≡ core.next_time self.now now }
    {
        self.memo.time.max(now.min(MAX_MS))
    }

    /// Puts an event at the end of the others, which may stand there. For want of memory all is as before.
    fn record(&mut self, event: Event) -> Result<(), NoMemory>
        requires { Fits (core.history self.old) event }
        ensures ok { OnOk result (self.new ≡ core.with_event self.old event) }
        ensures err { OnErr result (self.new ≡ self.old) }
    {
        self.events.reserve(1)?;
        if !self.memo.take(&event)? {
            unreachable!();
        }
        self.events.push_reserved(event);
        Ok(())
    }

    /// Whether the job allows these items, as far as their keys are nowhere, beside the keys that are known.
    fn room_for(&self, items: &[Item]) -> Result<(), FrontierStop>
        ensures ok { OnOk result (core.known_count self.now + core.absent_count self.now items.now ≤ self.now.settings.max_keys) }
        ensures full { (known adds : ℕ) → result ≡ Err (FrontierStop.Full known adds)
            → (known ≡ core.known_count self.now) × (adds ≡ core.absent_count self.now items.now) × (self.now.settings.max_keys < known + adds) }
    {
        let known = self.known();
        let adds = new_keys(&self.memo.places, items);
        let most = self.settings.max_keys;
        if most < known || most - known < adds {
            return Err(FrontierStop::Full { known, adds });
        }
        Ok(())
    }

    /// What seeds add.
    fn seed_adds(&self, alloc: Global, list: &Uris) -> Result<Items, NoMemory>
        requires { All IsUri list.now }
        ensures same { IfOk result (λ adds. (pages : Pages) → adds ≡ core.seed_adds self.now pages list.now) }
        ensures fresh { IfOk result (λ adds. are_new (core.history self.now) adds ≡ true) }
        ensures absent { IfOk result (λ adds. core.absent_count self.now adds ≡ length adds) }
        ensures valid { IfOk result (λ adds. (pages : Pages) → IsTrue (list_all is_add adds)) }
    {
        seed_adds(alloc, &self.memo.places, &self.scope, list.as_slice())
    }

    /// Adds those seeds that the scope takes and whose key is nowhere, each key once, at this moment, in milliseconds. No
    /// pages are asked, so that the event is the same whatever they are: after a legal history it is one step. `Full` tells that more keys would be known than
    /// the job allows.
    pub fn seeds(&mut self, alloc: Global, list: &Uris, now: Millis) -> Result<Event, FrontierStop>
        requires forms { All IsUri list.now }
        requires opened { list_any is_session self.old.events ≡ true }
        ensures ok { IfOk result (λ e. IsSeeded self.old self.new list.now now e) }
        ensures room { IfOk result (λ _. core.known_count self.new ≤ self.old.settings.max_keys) }
        ensures step { IfOk result (λ e. (pages : Pages) (a : Archive) → Legal (core.facts self.old pages) a self.old.events
            → Step (core.facts self.old pages) a (core.history self.old) e) }
        ensures stands { (pages : Pages) (a : Archive) → Stands pages a self.old → Stands pages a self.new }
        ensures full { (known adds : ℕ) → result ≡ Err (FrontierStop.Full known adds) → IsFull self.old list.now known adds }
        ensures err { OnErr result (self.new ≡ self.old) }
    {
        items_are_valid();
        valid_is_computed();
        let time = self.next_time(now);
        let adds = self.seed_adds(alloc, list)?;
        self.room_for(adds.as_slice())?;
        let event = Event::Seeds {
            time,
            list: list.copy()?,
            adds,
        };
        self.record(event.copy()?)?;
        Ok(event)
    }

    /// Whether it is over at a moment, in milliseconds: nothing is out, and a limit of the job is met or no class with an
    /// item that waits has budget left. It takes no memory.
    pub fn over(&self, now: Millis) -> bool
        ensures { (pages : Pages) (a : Archive) → result ≡ emission.is_over (core.facts self.now pages) a (core.history self.now) (core.next_time self.now now) }
    {
        let at = self.next_time(now);
        choosing::over(&self.settings, &self.memo, &self.robots, at)
    }

    /// What an emit at a time is to answer.
    fn decide(&self, at: Millis) -> Next<'_>
        ensures answered { (pages : Pages) (a : Archive) → Stands pages a self.now
            → emission.answer (core.facts self.now pages) a (core.history self.now) at ≡ answer_by result }
        ensures ready { IsReady (core.history self.now) result }
    {
        choosing::decide(&self.settings, &self.memo, &self.robots, at)
    }

    /// What may be done at a time with an item that waits.
    fn work_of(&self, alloc: Global, item: Item, tries: u32, at: Millis) -> Result<Work, NoMemory>
        ensures verdict { IfOk result (λ work. (pages : Pages) (a : Archive) → Stands pages a self.now
            → work.verdict ≡ verdicts.verdict (core.facts self.now pages) a (core.history self.now) item at) }
        ensures allowed { IfOk result (λ work. work.verdict ≡ Allowed → (is_secure work.item.uri && is_none self.now.settings.proxy) ≡ false) }
        ensures same { IfOk result (λ work. (work.item ≡ item) × (work.at ≡ at) × (work.tries ≡ tries)) }
    {
        let kept = self.robots.get(&item.class);
        let verdict = verdict(alloc, &self.settings, kept, &item, at)?;
        Ok(Work {
            item,
            verdict,
            at,
            tries,
        })
    }

    /// Puts an item that waits out, under the next ticket. For want of memory all is as before.
    fn put_out(&mut self, caller: u32, work: Work) -> Result<Emitted, NoMemory>
        requires { EmitFits (core.history self.old) (ticket_count (core.history self.old) + 1) work.item }
        ensures ok { IfOk result (λ one. (self.new ≡ core.with_event self.old (emit_event one)) × Fits (core.history self.old) (emit_event one)) }
        ensures same { IfOk result (λ one. (one.work ≡ work) × (one.caller ≡ caller) × (one.ticket ≡ ticket_count (core.history self.old) + 1)) }
        ensures held { IfOk result (λ one. IsHeld self.new one) }
        ensures err { OnErr result (self.new ≡ self.old) }
    {
        let ticket = self.memo.tickets + 1;
        let event = Event::Emit {
            time: work.at,
            caller,
            ticket,
            verdict: work.verdict,
            item: work.item.copy()?,
        };
        self.record(event)?;
        Ok(Emitted {
            work,
            ticket,
            caller,
        })
    }

    /// What the end of an item that is out adds, with the links of its page.
    fn adds_of(
        &self,
        alloc: Global,
        work: &Work,
        end: &End,
        links: &[Found],
    ) -> Result<Items, NoMemory>
        requires uri { IsUri work.now.item.uri }
        requires links { All IsLink links.now }
        ensures same { IfOk result (λ adds. (pages : Pages) (a : Archive) (c : Finishing) → c.item ≡ work.now.item → c.end ≡ end.now
            → ShowsLinks (core.facts self.now pages) a c links.now → adds ≡ history_adds.finish_adds (core.facts self.now pages) a (core.history self.now) c work.now.verdict) }
        ensures fresh { IfOk result (λ adds. are_new (core.history self.now) adds ≡ true) }
        ensures few { IfOk result (λ adds. length adds ≤ length links.now + 1) }
        ensures valid { IfOk result (λ adds. IsTrue (is_add work.now.item) → AllByRecursion IsAdd adds) }
    {
        finish_adds(alloc, &self.memo.places, &self.scope, work, end, links)
    }

    /// Puts the end of an item behind the other events, and keeps what it says of the robots file of a class. For want of
    /// memory all is as before.
    fn end(
        &mut self,
        event: Event,
        class: &ClassKey,
        kept: Option<KeptRobots>,
    ) -> Result<(), NoMemory>
        requires { Fits (core.history self.old) event }
        ensures ok { OnOk result (EndsWith self.old self.new event class.now kept) }
        ensures err { OnErr result (self.new ≡ self.old) }
    {
        let Some(kept) = kept else {
            return self.record(event);
        };
        let before = self.robots.insert(class.copy()?, kept)?;
        if let Err(stop) = self.record(event) {
            put_back(&mut self.robots, class, before);
            return Err(stop);
        }
        Ok(())
    }

    /// Hands out the item that goes first at a moment, in milliseconds, to one of at most 32 callers, counted from 0, and
    /// puts its event behind the others. Where nothing goes nothing changes: `Empty` tells that nothing may go yet, `Over`
    /// that nothing will go any more. For want of memory all is as before.
    pub fn emit(&mut self, alloc: Global, caller: u32, now: Millis) -> Result<Answer, NoMemory>
        requires { caller ≤ last_caller }
        ensures moves { IfOk result (Moves self.old self.new caller now) }
        ensures answers { IfOk result (λ answer. (pages : Pages) (a : Archive) → Stands pages a self.old → Answers pages a self.old now answer) }
        ensures stands { (pages : Pages) (a : Archive) → Stands pages a self.old → Stands pages a self.new }
        ensures valid { AllByRecursion IsEvent self.old.events → IfOk result IsValidAnswer }
        ensures err { OnErr result (self.new ≡ self.old) }
    {
        let at = self.next_time(now);
        let work = match self.decide(at) {
            Next::Go(own) => self.work_of(
                alloc,
                own.item.copy()?,
                next_try(&self.settings, own),
                at,
            )?,
            Next::Wait(next) => return Ok(Answer::Empty { next }),
            Next::Over => return Ok(Answer::Over),
        };
        let emitted = self.put_out(caller, work)?;
        Ok(Answer::Work(emitted))
    }

    /// Puts the end of an item that is out behind the other events, at a moment in milliseconds, with what it adds by the
    /// links of its page, and keeps what a robots file says by its payload. `Full` tells that more keys would be known than
    /// the job allows. After that, and for want of memory, all is as before, but that the item stays out.
    pub fn finish(
        &mut self,
        alloc: Global,
        emitted: Emitted,
        end: End,
        links: &[Found],
        payload: &[u8],
        now: Millis,
    ) -> Result<Event, FrontierStop>
        requires held { IsHeld self.old emitted }
        requires address { IsUri emitted.work.item.uri }
        requires links { All IsLink links.now }
        ensures ended { IfOk result (λ e. IsEnded self.old self.new emitted end now e) }
        ensures finished { IfOk result (λ e. (pages : Pages) (a : Archive)
            → Shows (core.facts self.old pages) a (finish_by self.old emitted end now (adds_of e)) links.now payload.now
            → IsFinished pages a self.old self.new emitted (finish_by self.old emitted end now (adds_of e))) }
        ensures room { IfOk result (λ _. core.known_count self.new ≤ self.old.settings.max_keys) }
        ensures few { IfOk result (λ e. length (adds_of e) ≤ length links.now + 1) }
        ensures valid { AllByRecursion IsEvent self.old.events → IsEnd end → IfOk result IsEvent }
        ensures full { (known adds : ℕ) → result ≡ Err (FrontierStop.Full known adds) → IsFullFor self.old emitted end now links.now known adds }
        ensures err { OnErr result (self.new ≡ self.old) }
    {
        valid_is_computed();
        let time = self.next_time(now);
        let Emitted {
            work,
            ticket,
            caller,
        } = emitted;
        let adds = self.adds_of(alloc, &work, &end, links)?;
        self.room_for(adds.as_slice())?;
        let agent = &self.settings.agent;
        let kept = kept_after(alloc, agent, &work.item, time, &end, payload)?;
        let class = work.item.class.copy()?;
        let event = Event::Finish {
            time,
            caller,
            ticket,
            item: work.item,
            end,
            adds,
        };
        self.end(event.copy()?, &class, kept)?;
        Ok(event)
    }
}
