// Events of the core, as plain data.
ghost use Rattle.std.specs.Prelude.{◌≡◌};
ghost use Rattle.crawl_kinds.specs.Event.{time_of};

use crate::item::{Item, Items, Uris};
use crate::memory::{Copied, NoMemory};
use crate::text::{Digest, Key, Media};

/// A moment, in milliseconds since 1970, or a time between two.
pub type Millis = u64;

/// The latest time of an event, in the year 9999.
pub const MAX_MS: u64 = 253_402_000_000_000;

/// Where the records of a finish stand: the number of the WARC file, the first byte and the length.
#[derive(Clone, Copy, Debug, PartialEq, Eq)]
pub struct Spot {
    pub file: u32,
    pub at: u64,
    pub len: u64,
}

/// What may be done with an item that is emitted.
#[derive(Clone, Copy, Debug, PartialEq, Eq)]
pub enum Verdict {
    /// It may be fetched.
    Allowed,
    /// Its host's robots file forbids it.
    Precluded,
    /// Its host's robots file has to be fetched first.
    Needed,
    /// Its scheme can't be fetched.
    Unsupported,
    /// Its host's robots file could not be fetched.
    Unreachable,
}

/// How an item ended.
#[derive(Clone, Copy, Debug, PartialEq, Eq)]
pub enum Outcome {
    Success,
    Failure,
    Disregard,
    /// It waits to be tried again.
    Retry,
}

/// When a fetch began, and how long it took.
#[derive(Clone, Copy, Debug, PartialEq, Eq)]
pub struct Fetch {
    pub start: Millis,
    pub duration: Millis,
}

/// Why a response was cut: at the limit of its length, or where the peer ended it.
#[derive(Clone, Copy, Debug, PartialEq, Eq)]
pub enum Cut {
    Length,
    Disconnect,
}

/// Remarks on an end: a cut, the try number, and the code of the fault that caused a last failure, or 0.
#[derive(Clone, Copy, Debug, PartialEq, Eq)]
pub struct Notes {
    pub cut: Option<Cut>,
    pub tries: u32,
    pub cause: i32,
}

/// What a success recorded: the size of its block in bytes, the media type and digest of its payload, and
/// where its records stand.
#[derive(Drop)]
pub struct Body {
    pub size: u64,
    pub media: Media,
    pub digest: Digest,
    pub spot: Spot,
}

/// The end of an item that was out. A code from 0 to 999 is an HTTP status (RFC 9110 §15).
#[derive(Drop)]
pub struct End {
    pub outcome: Outcome,
    pub code: i32,
    pub fetch: Option<Fetch>,
    pub body: Option<Body>,
    pub notes: Notes,
}

/// One atomic step of the core. Each has a time.
#[derive(Drop)]
pub enum Event {
    /// The crawl was opened, with the job of this name.
    Session {
        time: Millis,
        job: Key,
        format: u32,
    },
    /// Seeds were given, and those that were new and in scope were added.
    Seeds {
        time: Millis,
        list: Uris,
        adds: Items,
    },
    /// An item was handed out under a ticket.
    Emit {
        time: Millis,
        caller: u32,
        ticket: u64,
        verdict: Verdict,
        item: Item,
    },
    /// The item of a ticket came to an end, and items were added.
    Finish {
        time: Millis,
        caller: u32,
        ticket: u64,
        item: Item,
        end: End,
        adds: Items,
    },
}

/// Where a key is.
#[derive(Clone, Copy, Debug, PartialEq, Eq)]
pub enum Place {
    Absent,
    Waiting,
    /// Its last disposition's code.
    Done(i32),
}

impl Event {
    ghost use Rattle.std.specs.Prelude.{◌≡◌};
    ghost use Rattle.crawl_kinds.specs.Event.{time_of};

    /// The moment of the event.
    pub fn time(&self) -> Millis
        ensures { result ≡ time_of self.now }
    {
        match self {
            Event::Session { time, .. } => *time,
            Event::Seeds { time, .. } => *time,
            Event::Emit { time, .. } => *time,
            Event::Finish { time, .. } => *time,
        }
    }
}

impl Copied for Body {
    fn copy(&self) -> Result<Self, NoMemory> {
        Ok(Body {
            size: self.size,
            media: self.media.copy()?,
            digest: self.digest.copy()?,
            spot: self.spot,
        })
    }
}

impl Copied for End {
    fn copy(&self) -> Result<Self, NoMemory> {
        Ok(End {
            outcome: self.outcome,
            code: self.code,
            fetch: self.fetch,
            body: self.body.copy()?,
            notes: self.notes,
        })
    }
}

impl Copied for Event {
    fn copy(&self) -> Result<Self, NoMemory> {
        match self {
            Event::Session { time, job, format } => Ok(Event::Session {
                time: *time,
                job: job.copy()?,
                format: *format,
            }),
            Event::Seeds { time, list, adds } => Ok(Event::Seeds {
                time: *time,
                list: list.copy()?,
                adds: adds.copy()?,
            }),
            Event::Emit {
                time,
                caller,
                ticket,
                verdict,
                item,
            } => Ok(Event::Emit {
                time: *time,
                caller: *caller,
                ticket: *ticket,
                verdict: *verdict,
                item: item.copy()?,
            }),
            Event::Finish {
                time,
                caller,
                ticket,
                item,
                end,
                adds,
            } => Ok(Event::Finish {
                time: *time,
                caller: *caller,
                ticket: *ticket,
                item: item.copy()?,
                end: end.copy()?,
                adds: adds.copy()?,
            }),
        }
    }
}
