// The events of blocks.
ghost use Rattle.std.specs.Prelude.{◌≡◌, ℕ, List, length, IfOk, IfErr};
ghost use Rattle.std.specs.List.{AllByRecursion};
ghost use Rattle.gate_log.specs.Reading.{AreBlocksOf};
ghost use Rattle.journal_valid.specs.Valid.{IsEvent, IsSpelled};
ghost use Rattle.recover_journal.specs.Holds.{AreEvents};
ghost use Rattle.recover_journal.specs.Faults.{IsBlockFault, IsJournalFault};

use crawl_kinds::{Event, Listed};
use crawl_traits::{FileId, StoreFault};
use gate_log::{Block, Blocks, MOST_BODY};
use journal_read::{LineFault, one_bad_line, read_events};
use std::alloc::Global;

/// What a journal holds: its events in order, and for each of them the place of its block's gate, in bytes from the
/// file's front.
#[derive(Drop)]
pub struct Opened {
    pub events: Listed<Event>,
    pub gates: Listed<u64>,
}

/// A damage of the journal at this gate.
fn damaged_at(gate: u64) -> StoreFault
    ensures { result ≡ StoreFault.Damaged (FileId.Journal 0) gate }
{
    StoreFault::Damaged {
        file: FileId::Journal(0),
        at: gate,
    }
}

/// The events of a block.
fn events_of(alloc: Global, block: &Block) -> Result<Vec<Event>, StoreFault>
    ensures ok { IfOk result (λ events. IsSpelled events.items block.now.body) }
    ensures bad { IfErr result (IsBlockFault block.now) }
{
    let body = block.body.as_slice();
    // No log has a longer one; but of a volume that tells nothing, nothing is known.
    if body.len() > MOST_BODY {
        return Err(damaged_at(block.gate));
    }
    one_bad_line();
    match read_events(alloc, body) {
        Ok(events) => Ok(events.into_vec()),
        Err(LineFault::BadLine { .. }) => Err(damaged_at(block.gate)),
        Err(LineFault::NoMemory) => Err(StoreFault::NoMemory),
    }
}

/// The events of all blocks. Each body is let go as soon as it is read. The time is linear in the bodies.
pub fn events_of_all(alloc: Global, blocks: Blocks) -> Result<Opened, StoreFault>
    ensures ok { IfOk result (λ opened. AreEvents blocks opened.events opened.gates) }
    ensures valid { IfOk result (λ opened. AllByRecursion IsEvent opened.events) }
    ensures gates { IfOk result (λ opened. length opened.gates ≡ length opened.events) }
    ensures damaged { (file : List ℕ) → AreBlocksOf blocks file → IfErr result (IsJournalFault file) }
    ensures no_fault { IfErr result (λ fault. fault ≡ StoreFault.Volume → ⊥) }
{
    let mut events = Vec::new(alloc);
    let mut gates = Vec::new(alloc);
    for block in blocks.into_vec() {
        let mut own = events_of(alloc, &block)?;
        events.append(&mut own)?;
        gates.resize(events.len(), block.gate)?;
    }
    Ok(Opened {
        events: Listed::from(events),
        gates: Listed::from(gates),
    })
}
