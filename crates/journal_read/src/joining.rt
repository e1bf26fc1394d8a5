// How a line joins the events of the lines before it.
ghost use Rattle.std.specs.Prelude.{◌≡◌, ◌∷◌, ◌++◌, [], OnOk};
ghost use Rattle.journal_read.specs.Joining.{Grows, Joins, may_add, may_seed};
ghost use Rattle.journal_read.specs.declared.line.Line.TheVariants.{Add, Seed};

use crate::fault::Misread;
use crate::line::Line;
use crawl_kinds::{Event, Item, Items, NoMemory, Uri, Uris};
use std::alloc::Global;

/// Gives seeds one address more.
fn add_seed(event: &mut Event, uri: Uri) -> Result<(), Misread>
    ensures { Grows (may_seed event.old) (Seed uri) event.old event.new result }
{
    match event {
        Event::Seeds { list, adds, .. } => {
            if !adds.as_slice().is_empty() {
                return Err(Misread::Bad);
            }
            list.push(uri)?;
            Ok(())
        }
        _ => Err(Misread::Bad),
    }
}

/// Gives seeds or the end of an item one item more that they add.
fn add_item(event: &mut Event, item: Item) -> Result<(), Misread>
    ensures { Grows (may_add event.old) (Add item) event.old event.new result }
{
    match event {
        Event::Seeds { adds, .. } => {
            adds.push(item)?;
            Ok(())
        }
        Event::Finish { adds, .. } => {
            adds.push(item)?;
            Ok(())
        }
        _ => Err(Misread::Bad),
    }
}

/// Puts an address behind those of the last event, where that takes it.
fn seed_to_last(events: &mut Vec<Event>, uri: Uri) -> Result<(), Misread>
    ensures { Joins (Seed uri) events.old.items events.new.items result }
{
    match events.last_mut() {
        Some(event) => add_seed(event, uri),
        None => Err(Misread::Bad),
    }
}

/// Puts an item behind those of the last event, where that takes it.
pub fn add_to_last(events: &mut Vec<Event>, item: Item) -> Result<(), Misread>
    ensures { Joins (Add item) events.old.items events.new.items result }
{
    match events.last_mut() {
        Some(event) => add_item(event, item),
        None => Err(Misread::Bad),
    }
}

/// Puts an event behind the others.
fn begin(events: &mut Vec<Event>, event: Event) -> Result<(), NoMemory>
    ensures { OnOk result (events.new.items ≡ events.old.items ++ event ∷ []) }
{
    events.push(event)?;
    Ok(())
}

/// Puts a line behind those of events: it begins an event, or continues the last one. A finish has room for so many items.
pub fn join(alloc: Global, events: &mut Vec<Event>, line: Line, room: usize) -> Result<(), Misread>
    ensures { Joins line events.old.items events.new.items result }
{
    let event = match line {
        Line::Add { item } => return add_to_last(events, item),
        Line::Seed { uri } => return seed_to_last(events, uri),
        Line::Session { time, job, format } => Event::Session { time, job, format },
        Line::Seeds { time } => Event::Seeds {
            time,
            list: Uris::new(alloc),
            adds: Items::new(alloc),
        },
        Line::Emit {
            time,
            caller,
            ticket,
            verdict,
            item,
        } => Event::Emit {
            time,
            caller,
            ticket,
            verdict,
            item,
        },
        Line::Finish {
            time,
            caller,
            ticket,
            item,
            end,
        } => Event::Finish {
            time,
            caller,
            ticket,
            item,
            end,
            adds: Items::from(Vec::with_capacity(alloc, room)?),
        },
    };
    Ok(begin(events, event)?)
}
