// What is kept beside events.
ghost use Rattle.std.specs.Prelude.{◌≡◌, ◌↔◌, ◌+◌, ℕ, List, [], true, IsTrue, IfOk, OnErr, length};
ghost use Rattle.crawl_kinds.specs.declared.event.Event as event_type;
ghost use Rattle.crawl_history.specs.History.{History, history_of};
ghost use Rattle.crawl_history.specs.Places as places;
ghost use Rattle.frontier_memo.specs.Memory.{Remembers};
ghost use Rattle.frontier_memo.specs.Taking.{MayEmit, MayFinish, Takes};

use crate::counts::Counts;
use crate::item::same_item;
use crate::known::{Known, item_waits, place_at, waits};
use crate::places::{add_each, end_and_add};
use crate::session::{Out, SessionMemo, is_key_out, item_out};
use crawl_kinds::{Copied, End, Event, Item, Key, Millis, NoMemory, Place};
use std::alloc::Global;
use std::collections::BTreeMap;

/// What is kept beside events: where each key is, how many ordinals and tickets were given, the greatest time, the time of
/// the first session, and what is kept of the session and of the counts.
#[derive(Drop)]
pub struct Memo {
    pub places: BTreeMap<Key, Known>,
    pub ordinals: u64,
    pub tickets: u64,
    pub time: Millis,
    pub first: Option<Millis>,
    pub session: SessionMemo,
    pub counts: Counts,
}

impl Memo {
    /// What is kept beside no events.
    pub fn new(alloc: Global) -> Memo
        ensures { Remembers (history_of []) result }
    {
        Memo {
            places: BTreeMap::new(alloc),
            ordinals: 0,
            tickets: 0,
            time: 0,
            first: None,
            session: SessionMemo::new(alloc),
            counts: Counts::new(alloc),
        }
    }

    /// Where a key is. It takes no memory.
    pub fn place_of(&self, key: &Key) -> Place
        ensures { (h : History) → Remembers h self.now → result ≡ places.place_of h key.now }
    {
        place_at(&self.places, key)
    }

    /// How many keys are somewhere, after these events from the start. It takes no memory.
    pub fn known(&self) -> u64
        ensures { (events : List event_type.Event) → Remembers (history_of events) self.now → result ≡ length (places.known_keys (history_of events)) }
    {
        self.places.len() as u64
    }

    /// Whether an item may be emitted under this ticket.
    fn emit_fits(&self, ticket: u64, item: &Item) -> bool
        ensures { IsTrue result ↔ MayEmit self.now ticket item.now }
    {
        self.tickets < ticket
            && ticket - self.tickets == 1
            && item_waits(&self.places, item)
            && !is_key_out(&self.session.out, &item.key)
    }

    /// Whether a ticket is out with this item, whose key waits.
    fn finish_fits(&self, ticket: u64, item: &Item) -> bool
        ensures { IsTrue result ↔ MayFinish self.now ticket item.now }
    {
        let Some(own) = item_out(&self.session.out, ticket) else {
            return false;
        };
        same_item(own, item) && waits(&self.places, &item.key)
    }

    /// How many ordinals are given with these adds. More of them than 64 bits count can't be stored.
    fn ordinals_with(&self, adds: &[Item]) -> Result<u64, NoMemory>
        ensures { IfOk result (λ n. n ≡ self.now.ordinals + length adds.now) }
    {
        match self.ordinals.checked_add(adds.len() as u64) {
            Some(ordinals) => Ok(ordinals),
            None => Err(NoMemory),
        }
    }

    /// Takes in a session.
    fn take_session(&mut self, time: Millis)
        ensures { (h : History) (job : List ℕ) (format : ℕ) → Remembers h self.old → Takes h (Event.Session time job format) self.new true }
    {
        self.session.begin(time, self.tickets);
        self.first = self.first.or(Some(time));
        self.time = self.time.max(time);
    }

    /// Takes in seeds.
    fn take_seeds(&mut self, time: Millis, adds: &[Item]) -> Result<bool, NoMemory>
        ensures taken { IfOk result (λ fits. (h : History) (list : List (List ℕ)) → Remembers h self.old → Takes h (Event.Seeds time list adds.now) self.new fits) }
        ensures err { OnErr result ((h : History) → Remembers h self.old → Remembers h self.new) }
    {
        let ordinals = self.ordinals_with(adds)?;
        let alloc = *self.session.out.allocator();
        if !add_each(alloc, &mut self.places, adds, self.ordinals)? {
            return Ok(false);
        }
        self.ordinals = ordinals;
        self.time = self.time.max(time);
        Ok(true)
    }

    /// Takes in an emit.
    fn take_emit(&mut self, one: Out) -> Result<bool, NoMemory>
        ensures taken { IfOk result (λ fits. (h : History) → Remembers h self.old → Takes h (Event.Emit one.time one.caller one.ticket one.verdict one.item) self.new fits) }
        ensures err { OnErr result ((h : History) → Remembers h self.old → Remembers h self.new) }
    {
        if !self.emit_fits(one.ticket, &one.item) {
            return Ok(false);
        }
        let ticket = one.ticket;
        let time = one.time;
        self.session.put_out(one)?;
        self.tickets = ticket;
        self.time = self.time.max(time);
        Ok(true)
    }

    /// Takes in a finish.
    fn take_finish(
        &mut self,
        time: Millis,
        ticket: u64,
        item: &Item,
        end: &End,
        adds: &[Item],
    ) -> Result<bool, NoMemory>
        ensures taken { IfOk result (λ fits. (h : History) (caller : ℕ) → Remembers h self.old → Takes h (Event.Finish time caller ticket item.now end.now adds.now) self.new fits) }
        ensures err { OnErr result ((h : History) → Remembers h self.old → Remembers h self.new) }
    {
        if !self.finish_fits(ticket, item) {
            return Ok(false);
        }
        let ordinals = self.ordinals_with(adds)?;
        let alloc = *self.session.out.allocator();
        self.session.make_room(&item.class)?;
        self.counts.make_room(&item.class)?;
        if !end_and_add(alloc, &mut self.places, item, end, adds, self.ordinals)? {
            return Ok(false);
        }
        self.session.end(time, ticket, item, end);
        self.counts.count(item, end);
        self.ordinals = ordinals;
        self.time = self.time.max(time);
        Ok(true)
    }

    /// Takes in one event more, and tells whether it may stand after those before it. Where it may not, what is kept is of
    /// no more use; for want of memory it says the same as before.
    pub fn take(&mut self, event: &Event) -> Result<bool, NoMemory>
        ensures taken { IfOk result (λ fits. (h : History) → Remembers h self.old → Takes h event.now self.new fits) }
        ensures err { OnErr result ((h : History) → Remembers h self.old → Remembers h self.new) }
    {
        match event {
            Event::Session { time, .. } => {
                self.take_session(*time);
                Ok(true)
            }
            Event::Seeds { time, adds, .. } => self.take_seeds(*time, adds.as_slice()),
            Event::Emit {
                time,
                caller,
                ticket,
                verdict,
                item,
            } => self.take_emit(Out {
                time: *time,
                caller: *caller,
                ticket: *ticket,
                verdict: *verdict,
                item: item.copy()?,
            }),
            Event::Finish {
                time,
                ticket,
                item,
                end,
                adds,
                ..
            } => self.take_finish(*time, *ticket, item, end, adds.as_slice()),
        }
    }
}
