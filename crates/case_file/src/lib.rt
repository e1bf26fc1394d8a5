//! Case files: readable lines, each of which asks a question and says beside it what must come of it. docs/CASES.md describes
//! them. A program of cases reads one on standard input, asks each question, and prints which answers differ.
#![tactic(auto)]

mod ask;
mod entry;
mod escape;
mod read;

pub use ask::{Asker, Reply, ask_all};
pub use entry::{CaseFault, Entry};
pub use escape::unescaped;
pub use read::read_cases;
