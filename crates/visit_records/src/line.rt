// The line of an event on the output.
ghost use Rattle.std.specs.Prelude.{◌≡◌, IfOk};
ghost use Rattle.visit_spec.specs.Lines.{log_line};

use crawl_kinds::{Event, NoMemory, Outcome};
use itoa::Buffer;
use std::alloc::Global;

/// The line of an event on the output: its code and the address, for an end that stays. It is empty for every other event, and
/// for an end that is tried again.
pub fn line_of(alloc: Global, event: &Event) -> Result<Vec<u8>, NoMemory>
    ensures { IfOk result (λ line. line.items ≡ log_line event.now) }
{
    let mut line = Vec::new(alloc);
    let Event::Finish { item, end, .. } = event else {
        return Ok(line);
    };
    if matches!(end.outcome, Outcome::Retry) {
        return Ok(line);
    }
    let mut digits = Buffer::new();
    line.extend_from_slice(digits.format(end.code).as_bytes())?;
    line.push(b' ')?;
    line.extend_from_slice(item.uri.as_bytes())?;
    line.push(b'\n')?;
    Ok(line)
}
