//! One exchange for an address over a link: the request is sent, and the response is read.
#![tactic(auto)]

mod page;
mod receive;
mod send;

pub use page::{FetchStop, Fetched, fetch};
