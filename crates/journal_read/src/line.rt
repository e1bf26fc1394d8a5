// The lines of the journal as values.
use crawl_kinds::{End, Item, Key, Millis, Uri, Verdict};

/// A line of the journal.
#[derive(Drop)]
pub enum Line {
    /// The first line of a session's event, which has no other.
    Session {
        time: Millis,
        job: Key,
        format: u32,
    },
    /// The first line of seeds.
    Seeds {
        time: Millis,
    },
    /// A seed that was given.
    Seed {
        uri: Uri,
    },
    /// An item that was added.
    Add {
        item: Item,
    },
    /// The one line of an item that was handed out.
    Emit {
        time: Millis,
        caller: u32,
        ticket: u64,
        verdict: Verdict,
        item: Item,
    },
    /// The first line of the end of an item.
    Finish {
        time: Millis,
        caller: u32,
        ticket: u64,
        item: Item,
        end: End,
    },
}
