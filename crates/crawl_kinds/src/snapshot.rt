// What a checkpoint keeps of a history.
use crate::event::{Millis, Verdict};
use crate::item::Item;
use crate::list::Listed;
use crate::memory::{Copied, NoMemory};
use crate::text::{ClassKey, Key};

/// The end of the last cited record: the number of its WARC file, and the place behind it.
#[derive(Clone, Copy, Debug, PartialEq, Eq)]
pub struct Edge {
    pub file: u32,
    pub end: u64,
}

/// A key that is done, with the code of its last disposition.
#[derive(Drop)]
pub struct KeyDone {
    pub key: Key,
    pub code: i32,
}

/// An item that waits: the ordinal of its add, and how often it was tried in vain since.
#[derive(Drop)]
pub struct KeyWaits {
    pub ordinal: u64,
    pub item: Item,
    pub tries: u32,
}

/// What a class has spent of its budget.
#[derive(Drop)]
pub struct ClassSpent {
    pub class: ClassKey,
    pub spent: u64,
}

/// A ticket that is out.
#[derive(Drop)]
pub struct TicketOut {
    pub ticket: u64,
    pub caller: u32,
    pub time: Millis,
    pub verdict: Verdict,
    pub key: Key,
}

/// A history as a checkpoint keeps it: how many events, the greatest time, how many tickets and ordinals,
/// the end of the last cited record, the pages and bytes that the limits look at, the time of the first
/// session, the keys that are done and those that wait, the budgets spent, and the tickets that are out.
#[derive(Drop)]
pub struct Snapshot {
    pub events: u64,
    pub time: Millis,
    pub tickets: u64,
    pub ordinals: u64,
    pub end: Option<Edge>,
    pub pages: u64,
    pub bytes: u64,
    pub first: Millis,
    pub finished: Listed<KeyDone>,
    pub waiting: Listed<KeyWaits>,
    pub spent: Listed<ClassSpent>,
    pub tickets_out: Listed<TicketOut>,
}

impl Copied for KeyDone {
    fn copy(&self) -> Result<Self, NoMemory> {
        Ok(KeyDone {
            key: self.key.copy()?,
            code: self.code,
        })
    }
}

impl Copied for KeyWaits {
    fn copy(&self) -> Result<Self, NoMemory> {
        Ok(KeyWaits {
            ordinal: self.ordinal,
            item: self.item.copy()?,
            tries: self.tries,
        })
    }
}

impl Copied for ClassSpent {
    fn copy(&self) -> Result<Self, NoMemory> {
        Ok(ClassSpent {
            class: self.class.copy()?,
            spent: self.spent,
        })
    }
}

impl Copied for TicketOut {
    fn copy(&self) -> Result<Self, NoMemory> {
        Ok(TicketOut {
            ticket: self.ticket,
            caller: self.caller,
            time: self.time,
            verdict: self.verdict,
            key: self.key.copy()?,
        })
    }
}

impl Copied for Snapshot {
    fn copy(&self) -> Result<Self, NoMemory> {
        Ok(Snapshot {
            events: self.events,
            time: self.time,
            tickets: self.tickets,
            ordinals: self.ordinals,
            end: self.end,
            pages: self.pages,
            bytes: self.bytes,
            first: self.first,
            finished: self.finished.copy()?,
            waiting: self.waiting.copy()?,
            spent: self.spent.copy()?,
            tickets_out: self.tickets_out.copy()?,
        })
    }
}
