// The journal as it is read.
ghost use Rattle.std.specs.Prelude.{◌≡◌, ◌+◌, ◌≤◌, length, IsTrue, IfOk, IfErr};
ghost use Rattle.std.specs.List.{AllByRecursion};
ghost use Rattle.crawl_traits.specs.Causes.{HasStoreCause};
ghost use Rattle.crawl_traits.specs.Runs.{LeavesOnly};
ghost use Rattle.journal_valid.specs.Valid.{IsEvent};
ghost use Rattle.recover_journal.specs.Holds.{journal_file, HoldsEvents};
ghost use Rattle.recover_journal.specs.Faults.{IsJournalFault};

use crate::events::events_of_all;
use crawl_kinds::{Event, Listed};
use crawl_traits::{FileId, StoreFault, Volume};
use gate_log::read_log;
use std::alloc::Global;

/// Reads the events of the journal, and changes nothing. Damaged names the gate of the first bad block: one that is not
/// whole, or whose body is the lines of no events.
pub fn read_all<V: Volume>(alloc: Global, volume: &mut V) -> Result<Listed<Event>, StoreFault>
    ensures ok { IsTrue (V.tells volume.old) → IfOk result (λ events. HoldsEvents events (V.contents volume.old journal_file)) }
    ensures valid { IfOk result (λ events. AllByRecursion IsEvent events) }
    ensures damaged { IsTrue (V.tells volume.old) → IfErr result (IsJournalFault (V.contents volume.old journal_file)) }
    ensures contents { V.contents volume.new ≡ V.contents volume.old }
    ensures tells { V.tells volume.new ≡ V.tells volume.old }
    ensures any_moment { LeavesOnly V.Volume volume.old volume.new (V.may_leave volume.old) }
    ensures read { IsTrue (V.tells volume.old) → V.bytes_read volume.new ≤ V.bytes_read volume.old + length (V.contents volume.old journal_file) }
    ensures cause { HasStoreCause (V.faults volume.old) (V.faults volume.new) result }
{
    let blocks = read_log(alloc, volume, FileId::Journal(0))?;
    let opened = events_of_all(alloc, blocks)?;
    Ok(opened.events)
}
