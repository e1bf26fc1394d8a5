// Lines of the journal, read as events and spelled again.
ghost use Rattle.std.specs.Prelude.{◌≡◌, ◌≤◌, length, flat_map, IfOk};
ghost use Rattle.std.specs.List.{AllByRecursion};
ghost use Rattle.journal_spec.specs.Journal.{spelling};
ghost use Rattle.journal_valid.specs.Valid.{IsEvent, IsSpelled};

use case_file::{Entry, Reply};
use crawl_kinds::{Copied, Event, Listed};
use journal_lines::event_lines;
use journal_read::{LineFault, read_events};
use std::alloc::Global;
use std::test::Fail;

/// The most bytes that the lines of a block have.
const MOST: usize = 2_000_000_000;

/// The lines of events, in their order.
pub fn lines_of(alloc: Global, events: &[Event]) -> Result<Vec<u8>, Fail> {
    let mut text = Vec::new(alloc);
    for event in events {
        event_lines(event, &mut text)?;
    }
    Ok(text)
}

/// The events of lines, or the first bad line.
fn read_lines(alloc: Global, text: &[u8]) -> Result<Result<Listed<Event>, u32>, Fail>
    ensures { IfOk result (λ read. IfOk read (λ events. IsSpelled events text.now × (length text.now ≤ 2000000000))) }
{
    if text.len() > MOST {
        return Err(Fail::from("too many lines"));
    }
    match read_events(alloc, text) {
        Ok(events) => Ok(Ok(events)),
        Err(LineFault::BadLine { line }) => Ok(Err(line)),
        Err(LineFault::NoMemory) => Err(Fail::from("no memory")),
    }
}

/// The events of lines that make a block.
pub fn block_events(alloc: Global, text: &[u8]) -> Result<Listed<Event>, Fail>
    ensures some { IfOk result (λ events. 1 ≤ length events) }
    ensures valid { IfOk result (λ events. AllByRecursion IsEvent events) }
    ensures short { IfOk result (λ events. length (flat_map spelling events) ≤ 2000000000) }
{
    match read_lines(alloc, text)? {
        Ok(events) if !events.as_slice().is_empty() => Ok(events),
        _ => Err(Fail::from("these lines make no block")),
    }
}

/// How many events lines are, or which line is the first bad one; and whether the events are spelled as these lines.
pub fn read(alloc: Global, entry: &Entry) -> Result<Reply, Fail> {
    let said = match read_lines(alloc, entry.text.as_slice())? {
        Ok(events) => counted(alloc, events.as_slice(), entry.text.as_slice())?,
        Err(line) => format!(in alloc; "bad line {line}")?,
    };
    Ok(Reply::Said(said.into_bytes()))
}

/// How many events there are, and whether their lines are other ones.
fn counted(alloc: Global, events: &[Event], lines: &[u8]) -> Result<String, Fail> {
    let count = events.len();
    let again = lines_of(alloc, events)?;
    if again.as_slice() == lines {
        Ok(format!(in alloc; "{count} events")?)
    } else {
        Ok(format!(in alloc; "{count} events, spelled otherwise")?)
    }
}

/// The times of events that are made a second time, and then their lines.
pub fn copied(alloc: Global, entry: &Entry) -> Result<Reply, Fail> {
    let events = block_events(alloc, entry.text.as_slice())?;
    let again = Listed::from(events.copy()?.into_vec());
    let mut said = times_of(alloc, again.as_slice())?;
    let mut lines = lines_of(alloc, again.as_slice())?;
    said.append(&mut lines)?;
    Ok(Reply::Said(said))
}

/// A line with the times of events.
fn times_of(alloc: Global, events: &[Event]) -> Result<Vec<u8>, Fail> {
    let mut said = String::from_str(alloc, "at")?;
    for event in events {
        let time = event.time();
        said.push_str(format!(in alloc; " {time}")?.as_str())?;
    }
    said.push('\n')?;
    Ok(said.into_bytes())
}
