// The journal in a volume.
ghost use Rattle.std.specs.Prelude.{◌≡◌, ◌≢◌, ◌+◌, ◌≤◌, ◌++◌, length, List, IsTrue, OnOk, IfOk, IfErr};
ghost use Rattle.std.specs.List.{AllByRecursion, flat_map};
ghost use Rattle.crawl_kinds.specs.declared.event.Event.{Event};
ghost use Rattle.crawl_traits.specs.Causes.{HasCause, HasStoreCause};
ghost use Rattle.crawl_traits.specs.Images.{After};
ghost use Rattle.crawl_traits.specs.Runs.{LeavesOnly};
ghost use Rattle.gate_log.specs.Logs.{file_of};
ghost use Rattle.journal_spec.specs.Journal.{spelling};
ghost use Rattle.journal_valid.specs.Valid.{IsEvent, IsSpelled};
ghost use Rattle.recover_journal.specs.Holds.{journal_file, Holds};
ghost use Rattle.recover_journal.specs.Faults.{IsJournalFault};

use crate::events::{Opened, events_of_all};
use crate::lines::lines_of;
use crawl_kinds::{Event, NoMemory};
use crawl_traits::{FileId, StoreFault, Volume};
use gate_log::{Frame, GateLog, one_reading};
use std::alloc::Global;

/// The journal of a crawl in a volume, ready for its next block.
#[derive(Drop)]
pub struct Journal {
    log: GateLog,
    ghost segment: { file_of log ≡ journal_file },
}

impl Journal {
    ghost use Rattle.recover_journal.specs.Rest.{Rests, KeepsEvents, KeepsReading, HoldsMore, OthersStay};

    /// Opens the journal, and gives its events. What stands behind the gate that ends its blocks is cut off. Damaged names
    /// the gate of the first bad block: one that is not whole, or whose body is the lines of no events. After a fault of
    /// the volume open it again; any other leaves the journal with what it holds, and with its damage.
    pub fn open<V: Volume>(alloc: Global, volume: &mut V) -> Result<(Journal, Opened), StoreFault>
        ensures holds { IsTrue (V.tells volume.old) → IfOk result (λ r. Holds r.1.events r.1.gates (V.contents volume.old journal_file)) }
        ensures rests { IsTrue (V.tells volume.old) → IfOk result (λ r. Rests V.Volume r.0 volume.new r.1.events) }
        ensures valid { IfOk result (λ r. AllByRecursion IsEvent r.1.events) }
        ensures gates { IfOk result (λ r. length r.1.gates ≡ length r.1.events) }
        ensures damaged { IsTrue (V.tells volume.old) → IfErr result (IsJournalFault (V.contents volume.old journal_file)) }

        // A crash at any moment of the call leaves of each image's journal the events that it holds.
        ensures any_moment { IsTrue (V.tells volume.old) → LeavesOnly V.Volume volume.old volume.new (After journal_file KeepsEvents (V.may_leave volume.old)) }
        ensures kept { IsTrue (V.tells volume.old) → IfErr result (λ fault. fault ≢ StoreFault.Volume → KeepsReading (V.contents volume.old journal_file) (V.contents volume.new journal_file)) }
        ensures others { IsTrue (V.tells volume.old) → OthersStay (V.contents volume.old) (V.contents volume.new) }
        ensures tells { V.tells volume.new ≡ V.tells volume.old }

        ensures read { IsTrue (V.tells volume.old) → V.bytes_read volume.new ≤ V.bytes_read volume.old + length (V.contents volume.old journal_file) }
        ensures cause { HasStoreCause (V.faults volume.old) (V.faults volume.new) result }
    {
        let (log, blocks) = GateLog::open(alloc, volume, FileId::Journal(0))?;
        // A file counts one list of blocks: a bad one is bad still.
        one_reading();
        let opened = events_of_all(alloc, blocks)?;
        Ok((Journal { log }, opened))
    }

    /// The block of these events: one or more valid ones, whose lines together have at most 2,000,000,000 bytes. It fails
    /// for want of memory alone.
    pub fn block(alloc: Global, events: &[Event]) -> Result<Frame, NoMemory>
        requires some { 1 ≤ length events.now }
        requires valid { AllByRecursion IsEvent events.now }
        requires short { length (flat_map spelling events.now) ≤ 2000000000 }
        ensures { IfOk result (λ body. IsSpelled events.now body) }
    {
        let body = lines_of(alloc, events)?;
        Frame::of(alloc, &body)
    }

    /// Adds a block of events, as `block` makes it. At `Ok` they are in every later image. After a fault open the journal
    /// again. It takes no memory.
    pub fn append<V: Volume>(&mut self, volume: &mut V, block: &Frame) -> Result<(), StoreFault>
        ensures ok { OnOk result ((events more : List Event) → Rests V.Volume self.old volume.old events → IsSpelled more block.now
            → Rests V.Volume self.new volume.new (events ++ more)) }

        // A crash at any moment of the call leaves the events from before it, with the new ones or without.
        ensures any_moment { (events more : List Event) → Rests V.Volume self.old volume.old events → IsSpelled more block.now
            → LeavesOnly V.Volume volume.old volume.new (After journal_file (HoldsMore events more) (V.may_leave volume.old)) }
        ensures others { IsTrue (V.tells volume.old) → OthersStay (V.contents volume.old) (V.contents volume.new) }
        ensures tells { V.tells volume.new ≡ V.tells volume.old }

        ensures read { V.bytes_read volume.new ≡ V.bytes_read volume.old }
        ensures cause { HasCause (V.faults volume.old) (V.faults volume.new) result }
        ensures only_volume { IfErr result (λ fault. fault ≡ StoreFault.Volume) }
    {
        self.log.append(volume, block)
    }
}
