//! The lines of the journal, format 1, as they are read: readers of their fields, each of which gives the one value that
//! is spelled so, and the law that a text of lines is that of one list of events.
#![tactic(auto)]

mod body;
mod end;
mod fault;
mod fetch;
mod fields;
mod hosts;
mod item;
mod joining;
mod laws;
mod line;
mod notes;
mod number;
mod parts;
mod read_line;
mod reader;
mod recent;
mod text;

pub use fault::LineFault;
pub use laws::{one_bad_line, one_text_one_list};
pub use reader::read_events;
