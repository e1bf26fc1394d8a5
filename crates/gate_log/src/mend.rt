// The end of a log.
ghost use Rattle.std.specs.Prelude.{◌≡◌, List, ℕ, length, IsTrue, OnOk};
ghost use Rattle.crawl_traits.specs.Causes.{HasCause};
ghost use Rattle.crawl_traits.specs.Images.{InFile, After};
ghost use Rattle.crawl_traits.specs.Runs.{LeavesOnly};
ghost use Rattle.gate_log.specs.Blocks.{blocks, Counts};
ghost use Rattle.gate_log.specs.Rest.{IsOnDisk, RestsAt, Anything, KeepsCount};

use crawl_traits::{Failed, FileId, Volume, cut_synced, write_synced};

/// Makes the gate behind the blocks stand closed at the end of the file. These are the file's bytes, on the disk.
pub fn mend<V: Volume>(
    volume: &mut V,
    file: FileId,
    gate: usize,
    bytes: &[u8],
) -> Result<(), Failed>
    requires { IsTrue (V.tells volume.old) → V.contents volume.old file ≡ bytes.now }
    ensures ok { OnOk result ((bodies : List (List ℕ)) → IsOnDisk V.Volume volume.old file → Counts bodies bytes.now → gate ≡ length (blocks bodies)
        → RestsAt V.Volume volume.new file gate bodies) }
    ensures any_moment { (bodies : List (List ℕ)) → IsOnDisk V.Volume volume.old file → Counts bodies bytes.now → gate ≡ length (blocks bodies)
        → LeavesOnly V.Volume volume.old volume.new (After file KeepsCount (V.may_leave volume.old)) }
    ensures changed { IsTrue (V.tells volume.old) → InFile file Anything (V.contents volume.old) (V.contents volume.new) }
    ensures tells { V.tells volume.new ≡ V.tells volume.old }
    ensures read { V.bytes_read volume.new ≡ V.bytes_read volume.old }
    ensures cause { HasCause (V.faults volume.old) (V.faults volume.new) result }
{
    if bytes.len() <= 1 {
        return write_synced(volume, file, 0, b"-");
    }
    if bytes.len() - 1 > gate {
        return cut_synced(volume, file, gate as u64 + 1);
    }
    Ok(())
}
