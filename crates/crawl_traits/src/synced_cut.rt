// A cut that is on the disk before it is done.
ghost use Rattle.std.specs.Prelude.{◌≡◌, ◌≤◌, IsTrue, length, OnOk};
ghost use Rattle.crawl_traits.specs.Causes.{HasCause};
ghost use Rattle.crawl_traits.specs.Images.{InFile, Shortened, TornCut, After, Only};
ghost use Rattle.crawl_traits.specs.Runs.{LeavesOnly};

use crate::{Failed, FileId, Volume};

/// Cuts a file to a length that is at most its own, and syncs. A crash at any moment of the call leaves the cut
/// done, undone or torn.
pub fn cut_synced<V: Volume>(volume: &mut V, file: FileId, to: u64) -> Result<(), Failed>
    requires { IsTrue (V.tells volume.old) → to ≤ length (V.contents volume.old file) }
    ensures cut { IsTrue (V.tells volume.old) → OnOk result (InFile file (Shortened to) (V.contents volume.old) (V.contents volume.new)) }
    ensures durable { IsTrue (V.tells volume.old) → OnOk result (Only file (V.contents volume.new file) (V.may_leave volume.new)) }
    ensures torn { IsTrue (V.tells volume.old) → InFile file (TornCut to) (V.contents volume.old) (V.contents volume.new) }
    ensures tells { V.tells volume.new ≡ V.tells volume.old }
    ensures any_moment { LeavesOnly V.Volume volume.old volume.new (After file (TornCut to) (V.may_leave volume.old)) }
    ensures read { V.bytes_read volume.new ≡ V.bytes_read volume.old }
    ensures cause { HasCause (V.faults volume.old) (V.faults volume.new) result }
{
    volume.cut(file, to)?;
    volume.sync(file)
}
