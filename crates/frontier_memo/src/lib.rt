//! What a crawl keeps beside the list of its events, so that no call scans them.
#![tactic(auto)]

mod classes;
mod counts;
mod fold;
mod item;
mod known;
mod laws;
mod memo;
mod places;
mod session;

pub use counts::Counts;
pub use fold::{FoldFault, remember};
pub use item::same_item;
pub use known::{Known, Waiting, place_at};
pub use laws::{free_adds_fit, keys_grow};
pub use memo::Memo;
pub use session::{Last, Out, SessionMemo};
