// A gate log in a volume.
ghost use Rattle.std.specs.Prelude.{◌≡◌, ◌≢◌, ◌<◌, ◌^◌, [], ◌∷◌, ◌++◌, ◌+◌, ◌≤◌, length, List, ℕ, IsTrue, OnOk, IfOk, IfErr};
ghost use Rattle.crawl_traits.specs.Causes.{HasCause, HasStoreCause};
ghost use Rattle.crawl_traits.specs.Images.{InFile, After};
ghost use Rattle.crawl_traits.specs.Runs.{LeavesOnly};

use crate::block::Blocks;
use crate::frame::Frame;
use crate::mend::mend;
use crate::whole::read_whole;
use crawl_traits::{FileId, StoreFault, Volume, write_synced};
use std::alloc::Global;

/// A log of blocks in a file of a volume, and the place of its next gate.
#[derive(Drop)]
pub struct GateLog {
    file: FileId,
    gate: u64,
    ghost in_range: { gate < 2 ^ 63 },
}

impl GateLog {
    ghost use Rattle.gate_log.specs.Blocks.{at_rest};
    ghost use Rattle.gate_log.specs.Reading.{AreBlocksOf, bodies_of, IsDamage};
    ghost use Rattle.gate_log.specs.Rest.{CountsOneMore, Anything, Emptied, KeepsCount};
    ghost use Rattle.gate_log.specs.Logs.{IsAtRest, file_of};

    /// Empties a file, and makes a log of no blocks in it. At `Ok` that is in every later image.
    pub fn fresh<V: Volume>(volume: &mut V, file: FileId) -> Result<GateLog, StoreFault>
        ensures ok { IfOk result (λ log. (file_of log ≡ file) × (IsTrue (V.tells volume.old) → IsAtRest V.Volume log volume.new [])) }
        ensures spelled { IsTrue (V.tells volume.old) → OnOk result (V.contents volume.new file ≡ at_rest []) }

        // A crash at any moment of the call leaves the other files as they were, and of this one no more than
        // there was: a file of at most one byte, which counts no block, stays one.
        ensures any_moment { LeavesOnly V.Volume volume.old volume.new (After file Emptied (V.may_leave volume.old)) }
        ensures changed { IsTrue (V.tells volume.old) → InFile file Anything (V.contents volume.old) (V.contents volume.new) }
        ensures tells { V.tells volume.new ≡ V.tells volume.old }

        ensures read { V.bytes_read volume.new ≡ V.bytes_read volume.old }
        ensures cause { HasCause (V.faults volume.old) (V.faults volume.new) result }
        ensures only_volume { IfErr result (λ fault. fault ≡ StoreFault.Volume) }
    {
        volume.cut(file, 0)?;
        write_synced(volume, file, 0, b"-")?;
        Ok(GateLog { file, gate: 0 })
    }

    /// Opens the log in a file, and gives its blocks. What stands behind the gate that ends them is cut off.
    /// The file is synced first, so that what a crash may leave is what was read. After a fault of the volume
    /// open the file again; before any other fault nothing was changed.
    pub fn open<V: Volume>(
        alloc: Global,
        volume: &mut V,
        file: FileId,
    ) -> Result<(GateLog, Blocks), StoreFault>
        ensures file { IfOk result (λ r. file_of r.0 ≡ file) }
        ensures ok { IsTrue (V.tells volume.old) → IfOk result (λ r. AreBlocksOf r.1 (V.contents volume.old file) × IsAtRest V.Volume r.0 volume.new (bodies_of r.1)) }

        // A crash at any moment of the call leaves of each image the blocks that it counts.
        ensures any_moment { IsTrue (V.tells volume.old) → LeavesOnly V.Volume volume.old volume.new (After file KeepsCount (V.may_leave volume.old)) }
        ensures changed { IsTrue (V.tells volume.old) → InFile file Anything (V.contents volume.old) (V.contents volume.new) }
        ensures tells { V.tells volume.new ≡ V.tells volume.old }

        ensures damaged { IsTrue (V.tells volume.old) → IfErr result (IsDamage file (V.contents volume.old file)) }
        ensures kept { IfErr result (λ fault. fault ≢ StoreFault.Volume → V.contents volume.new ≡ V.contents volume.old) }
        ensures read { IsTrue (V.tells volume.old) → V.bytes_read volume.new ≤ V.bytes_read volume.old + length (V.contents volume.old file) }
        ensures cause { HasStoreCause (V.faults volume.old) (V.faults volume.new) result }
    {
        volume.sync(file)?;
        let whole = read_whole(alloc, volume, file)?;
        mend(volume, file, whole.gate, &whole.bytes)?;
        let log = GateLog {
            file,
            gate: whole.gate as u64,
        };
        Ok((log, whole.blocks))
    }

    /// Adds a block. At `Ok` it is in every later image. After a fault, open the file again. It takes no memory.
    pub fn append<V: Volume>(&mut self, volume: &mut V, block: &Frame) -> Result<(), StoreFault>
        ensures ok { OnOk result ((bodies : List (List ℕ)) → IsAtRest V.Volume self.old volume.old bodies
            → IsAtRest V.Volume self.new volume.new (bodies ++ block.now ∷ [])) }

        // What a read then gives of the file, each byte of it.
        ensures spelled { OnOk result ((bodies : List (List ℕ)) → IsAtRest V.Volume self.old volume.old bodies
            → V.contents volume.new (file_of self.old) ≡ at_rest (bodies ++ block.now ∷ [])) }

        // A crash at any moment of the call leaves the blocks from before it, with the new one or without.
        ensures any_moment { (bodies : List (List ℕ)) → IsAtRest V.Volume self.old volume.old bodies
            → LeavesOnly V.Volume volume.old volume.new (After (file_of self.old) (CountsOneMore bodies block.now) (V.may_leave volume.old)) }

        // Of what is told only this file changes.
        ensures changed { IsTrue (V.tells volume.old) → InFile (file_of self.old) Anything (V.contents volume.old) (V.contents volume.new) }
        ensures tells { V.tells volume.new ≡ V.tells volume.old }

        ensures file { file_of self.new ≡ file_of self.old }
        ensures read { V.bytes_read volume.new ≡ V.bytes_read volume.old }
        ensures cause { HasCause (V.faults volume.old) (V.faults volume.new) result }
        ensures only_volume { IfErr result (λ fault. fault ≡ StoreFault.Volume) }
    {
        write_synced(volume, self.file, self.gate + 1, &block.bytes)?;
        write_synced(volume, self.file, self.gate, b"+")?;
        self.gate += block.bytes.len() as u64;
        Ok(())
    }
}
