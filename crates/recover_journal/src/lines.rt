// The lines of events.
ghost use Rattle.std.specs.Prelude.{◌≡◌, IfOk};
ghost use Rattle.std.specs.List.{flat_map};
ghost use Rattle.journal_spec.specs.Journal.{spelling};

use crawl_kinds::{Event, NoMemory};
use journal_lines::event_lines;
use std::alloc::Global;

/// The lines of events, in their order. It fails for want of memory alone.
pub fn lines_of(alloc: Global, events: &[Event]) -> Result<Vec<u8>, NoMemory>
    ensures { IfOk result (λ text. text.items ≡ flat_map spelling events.now) }
{
    let mut text = Vec::new(alloc);
    for event in events {
        event_lines(event, &mut text)?;
    }
    Ok(text)
}
