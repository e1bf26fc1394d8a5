// A write that is on the disk before it is done.
ghost use Rattle.std.specs.Prelude.{◌≡◌, ◌+◌, ◌<◌, ◌^◌, IsTrue, length, OnOk};
ghost use Rattle.crawl_traits.specs.Causes.{HasCause};
ghost use Rattle.crawl_traits.specs.Images.{InFile, Written, TornWrite, After, Only};
ghost use Rattle.crawl_traits.specs.Runs.{LeavesOnly};

use crate::{Failed, FileId, Volume};

/// Writes, and syncs. A crash at any moment of the call leaves the write done, undone or torn.
pub fn write_synced<V: Volume>(
    volume: &mut V,
    file: FileId,
    at: u64,
    from: &[u8],
) -> Result<(), Failed>
    ensures written { IsTrue (V.tells volume.old) → OnOk result (InFile file (Written at from.now) (V.contents volume.old) (V.contents volume.new)) }
    ensures durable { IsTrue (V.tells volume.old) → OnOk result (Only file (V.contents volume.new file) (V.may_leave volume.new)) }
    ensures torn { IsTrue (V.tells volume.old) → InFile file (TornWrite at (length from.now)) (V.contents volume.old) (V.contents volume.new) }
    ensures tells { V.tells volume.new ≡ V.tells volume.old }
    ensures in_range { OnOk result (at + length from.now < 2 ^ 63) }
    ensures any_moment { LeavesOnly V.Volume volume.old volume.new (After file (TornWrite at (length from.now)) (V.may_leave volume.old)) }
    ensures read { V.bytes_read volume.new ≡ V.bytes_read volume.old }
    ensures cause { HasCause (V.faults volume.old) (V.faults volume.new) result }
{
    volume.write_at(file, at, from)?;
    volume.sync(file)
}
