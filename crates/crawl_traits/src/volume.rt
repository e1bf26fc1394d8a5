// A volume of files: what a read gives, and what a crash may leave.
ghost use Rattle.std.specs.Prelude.{◌≡◌, ◌+◌, ◌≤◌, ◌<◌, ◌^◌, ℕ, Bool, IsTrue, length, take, drop, IfOk, OnOk, OnErr};
ghost use Rattle.crawl_traits.specs.Causes.{HasCause, Tallied};
ghost use Rattle.crawl_traits.specs.Images.{Image, Fewer, Written, TornWrite, Shortened, TornCut, InFile, Follows, Only, Elapses};

use crate::{Failed, FileId};

/// The files of a crawl. Between two syncs of a file a crash may leave any bytes in the written ranges and past
/// the end that the last sync left; after a sync it leaves of that file what a read gives. A call that fails may
/// have had any part of its effect on its file; the other files stay.
pub trait Volume {
    /// Whether it tells what its files hold.
    ghost tells: { Self → Bool };

    /// What the files hold, where it tells.
    ghost contents: { Self → Image };

    /// What a crash at this moment may leave.
    ghost may_leave: { Self → Image → Type 0 };

    /// The moment, as a number that never falls.
    ghost moment: { Self → ℕ };

    /// What a crash at some moment from that one on might have left, during a call or between two.
    ghost left_since: { Self → ℕ → Image → Type 0 };

    /// How many bytes `read_at` gave so far.
    ghost bytes_read: { Self → ℕ };

    /// How often it has failed.
    ghost faults: { Self → ℕ };

    /// How long a file is, in bytes.
    fn size(&mut self, file: FileId) -> Result<u64, Failed>
        ensures size { IsTrue (tells self.old) → IfOk result (λ n. n ≡ length (contents self.old file)) }
        ensures in_range { IfOk result (λ n. n < 2 ^ 63) }
        ensures contents { contents self.new ≡ contents self.old }
        ensures tells { tells self.new ≡ tells self.old }
        ensures crash { Fewer (may_leave self.old) (may_leave self.new) }
        ensures time { Elapses (moment self.old) (moment self.new) (left_since self.old) (left_since self.new) (may_leave self.new) }
        ensures read { bytes_read self.new ≡ bytes_read self.old }
        ensures cause { HasCause (faults self.old) (faults self.new) result };

    /// Fills a buffer with the bytes from a place on as far as the file goes, and says how many.
    fn read_at(&mut self, file: FileId, at: u64, into: &mut [u8]) -> Result<usize, Failed>
        ensures filled { IsTrue (tells self.old) → IfOk result (λ n. take n into.new ≡ take (length into.old) (drop at (contents self.old file))) }
        ensures within { IfOk result (λ n. n ≤ length into.new) }
        ensures contents { contents self.new ≡ contents self.old }
        ensures tells { tells self.new ≡ tells self.old }
        ensures crash { Fewer (may_leave self.old) (may_leave self.new) }
        ensures time { Elapses (moment self.old) (moment self.new) (left_since self.old) (left_since self.new) (may_leave self.new) }
        ensures read { IfOk result (λ n. Tallied (bytes_read self.old) n (bytes_read self.new)) }
        ensures read_err { OnErr result (bytes_read self.new ≡ bytes_read self.old) }
        ensures cause { HasCause (faults self.old) (faults self.new) result };

    /// Writes over what is there and past the end, with zero bytes between.
    fn write_at(&mut self, file: FileId, at: u64, from: &[u8]) -> Result<(), Failed>
        ensures written { IsTrue (tells self.old) → OnOk result (InFile file (Written at from.now) (contents self.old) (contents self.new)) }
        ensures torn { IsTrue (tells self.old) → InFile file (TornWrite at (length from.now)) (contents self.old) (contents self.new) }
        ensures in_range { OnOk result (at + length from.now < 2 ^ 63) }
        ensures tells { tells self.new ≡ tells self.old }
        ensures crash { Follows file (TornWrite at (length from.now)) (may_leave self.old) (may_leave self.new) }
        ensures time { Elapses (moment self.old) (moment self.new) (left_since self.old) (left_since self.new) (may_leave self.new) }
        ensures read { bytes_read self.new ≡ bytes_read self.old }
        ensures cause { HasCause (faults self.old) (faults self.new) result };

    /// Cuts a file to a length that is at most its own.
    fn cut(&mut self, file: FileId, to: u64) -> Result<(), Failed>
        requires { IsTrue (tells self.old) → to ≤ length (contents self.old file) }
        ensures cut { IsTrue (tells self.old) → OnOk result (InFile file (Shortened to) (contents self.old) (contents self.new)) }
        ensures torn { IsTrue (tells self.old) → InFile file (TornCut to) (contents self.old) (contents self.new) }
        ensures tells { tells self.new ≡ tells self.old }
        ensures crash { Follows file (TornCut to) (may_leave self.old) (may_leave self.new) }
        ensures time { Elapses (moment self.old) (moment self.new) (left_since self.old) (left_since self.new) (may_leave self.new) }
        ensures read { bytes_read self.new ≡ bytes_read self.old }
        ensures cause { HasCause (faults self.old) (faults self.new) result };

    /// Puts a file on the disk: after it, a crash leaves of that file what a read gives.
    fn sync(&mut self, file: FileId) -> Result<(), Failed>
        ensures durable { IsTrue (tells self.old) → OnOk result (Only file (contents self.old file) (may_leave self.new)) }
        ensures contents { contents self.new ≡ contents self.old }
        ensures tells { tells self.new ≡ tells self.old }
        ensures crash { Fewer (may_leave self.old) (may_leave self.new) }
        ensures time { Elapses (moment self.old) (moment self.new) (left_since self.old) (left_since self.new) (may_leave self.new) }
        ensures read { bytes_read self.new ≡ bytes_read self.old }
        ensures cause { HasCause (faults self.old) (faults self.new) result };

    /// What a read gives is one of the images.
    ghost reads_an_image: { (v : Self) → IsTrue (tells v) → may_leave v (contents v) };

    /// This moment is one of those since an earlier one.
    ghost counts_now: { (v : Self) (t : ℕ) (i : Image) → t ≤ moment v → may_leave v i → left_since v t i };

    /// Since this moment there is no other.
    ghost only_now: { (v : Self) (i : Image) → left_since v (moment v) i → may_leave v i };
}
