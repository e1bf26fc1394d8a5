//! A whole polite crawl with one worker: what the core hands out is processed and recorded, and while nothing may go it rests.
#![tactic(auto)]

mod crawling;
mod turn;
mod why;

pub use crawling::{Ended, crawl};
pub use turn::{Turn, take_turn};
pub use why::Why;
