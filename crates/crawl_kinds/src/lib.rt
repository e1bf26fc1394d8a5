//! The plain types of all layers: texts, lists, items, events, settings and snapshots.
#![tactic(auto)]

mod event;
mod form;
mod item;
mod list;
mod memory;
mod settings;
mod snapshot;
mod text;

pub use event::{
    Body, Cut, End, Event, Fetch, MAX_MS, Millis, Notes, Outcome, Place, Spot, Verdict,
};
pub use form::{ClassForm, DigestForm, KeyForm, MediaForm, PathForm, TextForm, UriForm};
pub use item::{Item, Items, Uris, Work};
pub use list::Listed;
pub use memory::{Copied, NoMemory};
pub use settings::Settings;
pub use snapshot::{ClassSpent, Edge, KeyDone, KeyWaits, Snapshot, TicketOut};
pub use text::{ClassKey, Digest, HopPath, Key, Media, Text, TextFault, Uri};
