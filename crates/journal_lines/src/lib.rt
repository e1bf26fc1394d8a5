//! Writes events as the lines of the journal, format 1: one spelling for each event.
#![tactic(auto, using(crate::proofs::Growth::take_shorter))]

ghost use Rattle.std.specs.Prelude.{◌≡◌, ◌++◌, OnOk, OnErr};
ghost use Rattle.journal_spec.specs.Journal.{spelling};

mod examples;
mod fields;
mod lines;
mod notes;
mod write;

use crawl_kinds::{Event, NoMemory};
pub use examples::examples_are_spelled;
use lines::write_event;

/// Writes the lines of an event at the end of `into`. For want of memory `into` stays as it was.
pub fn event_lines(event: &Event, into: &mut Vec<u8>) -> Result<(), NoMemory>
    ensures ok { OnOk result (into.new.items ≡ into.old.items ++ spelling event.now) }
    ensures err { OnErr result (into.new.items ≡ into.old.items) }
{
    let before = into.len();
    match write_event(event, into) {
        Ok(()) => Ok(()),
        Err(fault) => {
            into.truncate(before);
            Err(fault)
        }
    }
}
