//! The commands that keep a job and need no link: `init` and `enqueue`.
#![tactic(auto)]

mod commands;
mod enqueue;
mod init;
mod queue;
mod seeds;
mod stop;
mod stream;
mod words;

pub use commands::{Tended, tend};
pub use stop::{status_of, status_of_load};
