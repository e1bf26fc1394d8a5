// The block of an item's events.
ghost use Rattle.std.specs.Prelude.{IfOk};
ghost use Rattle.journal_valid.specs.Valid.{IsSpelled};
ghost use Rattle.visit_records.specs.Written.{IsTurn};

use crawl_kinds::{Event, NoMemory};
use gate_log::Frame;
use journal_sizes::valid_is_short;
use recover_journal::Journal;
use std::alloc::Global;

/// The block of the emit and the finish of one item. It fails for want of memory alone.
pub fn block_of(alloc: Global, events: &[Event]) -> Result<Frame, NoMemory>
    requires { IsTurn events.now }
    ensures { IfOk result (λ frame. IsSpelled events.now frame) }
{
    valid_is_short();
    Journal::block(alloc, events)
}
