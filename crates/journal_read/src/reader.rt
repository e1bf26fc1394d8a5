// The events of a text of lines.
ghost use Rattle.std.specs.Prelude.{◌≡◌, ◌≢◌, ℕ, ◌<◌, ◌^◌, IfOk, codes, length};
ghost use Rattle.journal_valid.specs.Valid.{IsSpelled};
ghost use Rattle.journal_read.specs.Faults.{IsBadLine};
ghost use Rattle.journal_read.specs.Joining.{Continues, Follows};
ghost use Rattle.journal_read.specs.Reading.{left};

use crate::fault::{LineFault, Misread};
use crate::joining::{add_to_last, join};
use crate::line::Line;
use crate::parts::{Parts, cut, is_same};
use crate::read_line::{tagged_line, take_add};
use crate::recent::{Page, Recent};
use crawl_kinds::{Event, Listed};
use std::alloc::Global;

/// For how many added items at most a finish makes room at once.
const MOST_ROOM: usize = 256;

/// How many lines in front are those of added items, up to `MOST_ROOM`.
fn adds_in_front(text: &[u8]) -> usize {
    let mut rest = text;
    for count in 0..MOST_ROOM {
        if !rest.starts_with(b"F+") {
            return count;
        }
        let Some((_, more)) = cut(rest, b'\n') else {
            return count;
        };
        rest = more;
    }
    MOST_ROOM
}

/// Reads what stands behind the tag of an added item, and gives the item to the last event.
fn read_add(
    alloc: Global,
    recent: &mut Recent,
    parts: &mut Parts,
    events: &mut Vec<Event>,
) -> Result<(), Misread>
    ensures { Follows (codes "F+") (left parts.old) events.old.items events.new.items result }
{
    let item = take_add(alloc, recent, parts)?;
    parts.end()?;
    add_to_last(events, item)
}

/// Reads what stands behind another tag. A finish is the page of the items that it adds, which stand behind the line.
fn read_other(
    alloc: Global,
    recent: &mut Recent,
    tag: &[u8],
    parts: &mut Parts,
    behind: &[u8],
    events: &mut Vec<Event>,
) -> Result<(), Misread>
    requires { tag.now ≢ codes "F+" }
    ensures { Follows tag.now (left parts.old) events.old.items events.new.items result }
{
    let line = tagged_line(alloc, recent, tag, parts)?;
    parts.end()?;
    let mut room = 0;
    if let Line::Finish { item, .. } = &line {
        recent.page = Some(Page::of(&item.uri)?);
        room = adds_in_front(behind);
    }
    join(alloc, events, line, room)
}

/// Reads a line, without the line feed at its end, behind those of events.
fn read_next(
    alloc: Global,
    recent: &mut Recent,
    text: &[u8],
    behind: &[u8],
    events: &mut Vec<Event>,
) -> Result<(), Misread>
    ensures { Continues text.now events.old.items events.new.items result }
{
    let mut parts = Parts::of(b' ', text);
    let tag = parts.next()?;
    if is_same(tag, b"F+") {
        return read_add(alloc, recent, &mut parts, events);
    }
    read_other(alloc, recent, tag, &mut parts, behind, events)
}

/// Reads the events of a text of lines, as `event_lines` writes them: format 1 of the journal. The empty text is that of
/// no events. Each event has one spelling, and a line that is not exactly one that may stand there is refused: where a
/// text is no list of valid events, `BadLine` names the first line, counted from 1, with which it is none. A last line
/// without a line feed is such a line. The time is linear in the text.
pub fn read_events(alloc: Global, text: &[u8]) -> Result<Listed<Event>, LineFault>
    requires { length text.now < 2 ^ 32 }
    ensures ok { IfOk result (λ events. IsSpelled events text.now) }
    ensures bad { (n : ℕ) → result ≡ Err (LineFault.BadLine n) → IsBadLine n text.now }
{
    let mut recent = Recent::new(alloc);
    let mut events = Vec::new(alloc);
    let mut rest = text;
    let mut line: u32 = 0;
    'lines: while !rest.is_empty() {
        line += 1;
        let Some((next, more)) = cut(rest, b'\n') else {
            return Err(LineFault::BadLine { line });
        };
        match read_next(alloc, &mut recent, next, more, &mut events) {
            Ok(()) => rest = more,
            Err(Misread::Bad) => return Err(LineFault::BadLine { line }),
            Err(Misread::NoMemory) => return Err(LineFault::NoMemory),
        }
    }
    Ok(Listed::from(events))
}
