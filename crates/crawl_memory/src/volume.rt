// A volume in memory.
ghost use Rattle.std.specs.Prelude.{◌≡◌, ◌+◌, ◌<◌, ◌≤◌, ◌^◌, ℕ, [], ◌∷◌, ◌++◌, length, take, drop, true, IfOk, OnOk, OnErr};
ghost use Rattle.crawl_traits.specs.Causes.{Tallied};
ghost use Rattle.crawl_traits.specs.declared.file.FileId.{FileId};
ghost use Rattle.crawl_memory.specs.Files.{file_bytes};
ghost use Rattle.crawl_memory.specs.Calls.{contents_after, newest_first};
ghost use Rattle.crawl_memory.specs.declared.call.Call.TheVariants.{Write as Wrote, Cut as Shortened, Sync as Synced};

use crate::call::Call;
use crate::fails::Fails;
use crate::file::MemFile;
use crate::files::{bytes_of, cut_file, write_file};
use crawl_kinds::{Listed, NoMemory};
use crawl_traits::{Failed, FileId, Volume};
use std::alloc::Global;

/// No file is so long.
const LIMIT: u64 = 1 << 63;

/// Files in memory, beside a record of the calls that made them. A call that is to fail has no effect.
#[derive(Drop)]
pub struct MemVolume {
    alloc: Global,
    calls: Vec<Call>,
    files: Vec<MemFile>,
    fails: Fails,
    given: u64,
    ghost kept: { (file : FileId) → file_bytes files.items file ≡ contents_after (newest_first calls.items) file },
}

impl MemVolume {
    /// A volume of no files.
    pub fn new(alloc: Global) -> Self
        ensures calls { result.calls.items ≡ [] }
        ensures listed { result.fails.listed.items ≡ [] }
        ensures first { result.fails.calls ≡ 0 }
    {
        MemVolume::with_faults(alloc, Vec::new(alloc))
    }

    /// A volume of no files whose calls of these numbers fail.
    pub fn with_faults(alloc: Global, calls: Vec<u64>) -> Self
        ensures calls { result.calls.items ≡ [] }
        ensures listed { result.fails.listed.items ≡ calls.items }
        ensures first { result.fails.calls ≡ 0 }
    {
        MemVolume {
            alloc,
            calls: Vec::new(alloc),
            files: Vec::new(alloc),
            fails: Fails::new(calls),
            given: 0,
        }
    }

    /// What a file holds.
    pub fn bytes(&self, file: FileId) -> &[u8]
        ensures { result.now ≡ contents_after (newest_first self.now.calls.items) file }
    {
        bytes_of(&self.files, file)
    }

    /// How many calls found no memory.
    pub fn starved(&self) -> u64
        ensures { result ≡ self.now.fails.starved }
    {
        self.fails.starved()
    }

    /// Writes, and records the call.
    fn record_write(&mut self, file: FileId, at: u64, from: &[u8]) -> Result<(), NoMemory>
        ensures ok { OnOk result (self.new.calls.items ≡ self.old.calls.items ++ Wrote file at from.now ∷ []) }
        ensures err { OnErr result (self.new.calls.items ≡ self.old.calls.items) }
        ensures in_range { OnOk result (at + length from.now < 2 ^ 63) }
        ensures fails { self.new.fails ≡ self.old.fails }
        ensures given { self.new.given ≡ self.old.given }
    {
        if at >= LIMIT {
            return Err(NoMemory);
        }
        if from.len() as u64 >= LIMIT - at {
            return Err(NoMemory);
        }
        let bytes = Listed::from(from.to_vec(self.alloc)?);
        self.calls.reserve(1)?;
        write_file(self.alloc, &mut self.files, file, at as usize, from)?;
        match self.calls.push(Call::Write { file, at, bytes }) {
            Ok(()) => Ok(()),
            Err(_) => unreachable!(),
        }
    }

    /// Cuts, and records the call.
    fn record_cut(&mut self, file: FileId, to: u64) -> Result<(), NoMemory>
        ensures ok { OnOk result (self.new.calls.items ≡ self.old.calls.items ++ Shortened file to ∷ []) }
        ensures err { OnErr result (self.new.calls.items ≡ self.old.calls.items) }
        ensures fails { self.new.fails ≡ self.old.fails }
        ensures given { self.new.given ≡ self.old.given }
    {
        self.calls.push(Call::Cut { file, to })?;
        cut_file(&mut self.files, file, to as usize);
        Ok(())
    }

    /// Records a sync.
    fn record_sync(&mut self, file: FileId) -> Result<(), NoMemory>
        ensures ok { OnOk result (self.new.calls.items ≡ self.old.calls.items ++ Synced file ∷ []) }
        ensures err { OnErr result (self.new.calls.items ≡ self.old.calls.items) }
        ensures fails { self.new.fails ≡ self.old.fails }
        ensures given { self.new.given ≡ self.old.given }
    {
        self.calls.push(Call::Sync { file })?;
        Ok(())
    }
}

/// Fills a buffer from a place on, as far as the bytes go.
fn fill(into: &mut [u8], bytes: &[u8], at: u64) -> usize
    ensures filled { take result into.new ≡ take (length into.old) (drop at bytes.now) }
    ensures within { result ≤ length into.new }
{
    if at >= bytes.len() as u64 {
        return 0;
    }
    let rest = &bytes[at as usize..];
    let count = into.len().min(rest.len());
    into[..count].copy_from_slice(&rest[..count]);
    count
}

impl Volume for MemVolume {
    ghost use Rattle.crawl_memory.specs.Calls.{contents_after, newest_first, MayLeave, LeftSince};
    ghost use Rattle.crawl_memory.specs.Fails.{FailsExactly};
    ghost use Rattle.crawl_memory.specs.Laws.{reads_one, now_counts, none_newer};

    ghost tells = { λ v. true };

    ghost contents = { λ v. contents_after (newest_first v.calls.items) };

    ghost may_leave = { λ v image. MayLeave (newest_first v.calls.items) image };

    ghost moment = { λ v. length (newest_first v.calls.items) };

    ghost left_since = { λ v t image. LeftSince (newest_first v.calls.items) t image };

    ghost bytes_read = { λ v. v.given };

    ghost faults = { λ v. v.fails.faults };

    ghost reads_an_image = { λ v told. reads_one (newest_first v.calls.items) };

    ghost counts_now = { λ v t image le now. now_counts (newest_first v.calls.items) t image le now };

    ghost only_now = { λ v image left. none_newer (newest_first v.calls.items) image left };

    fn size(&mut self, file: FileId) -> Result<u64, Failed>
        ensures size { IfOk result (λ n. n ≡ length (contents_after (newest_first self.old.calls.items) file)) }
        ensures in_range { IfOk result (λ n. n < 2 ^ 63) }
        ensures calls { self.new.calls.items ≡ self.old.calls.items }
        ensures read { self.new.given ≡ self.old.given }
        ensures exact { FailsExactly self.old.fails self.new.fails result }
    {
        if self.fails.next() {
            return Err(Failed);
        }
        Ok(bytes_of(&self.files, file).len() as u64)
    }

    fn read_at(&mut self, file: FileId, at: u64, into: &mut [u8]) -> Result<usize, Failed>
        ensures filled { IfOk result (λ n. take n into.new ≡ take (length into.old) (drop at (contents_after (newest_first self.old.calls.items) file))) }
        ensures within { IfOk result (λ n. n ≤ length into.new) }
        ensures calls { self.new.calls.items ≡ self.old.calls.items }
        ensures read { IfOk result (λ n. Tallied self.old.given n self.new.given) }
        ensures read_err { OnErr result (self.new.given ≡ self.old.given) }
        ensures exact { FailsExactly self.old.fails self.new.fails result }
    {
        if self.fails.next() {
            return Err(Failed);
        }
        let count = fill(into, bytes_of(&self.files, file), at);
        self.given = self.given.saturating_add(count as u64);
        Ok(count)
    }

    fn write_at(&mut self, file: FileId, at: u64, from: &[u8]) -> Result<(), Failed>
        ensures ok { OnOk result (self.new.calls.items ≡ self.old.calls.items ++ Wrote file at from.now ∷ []) }
        ensures err { OnErr result (self.new.calls.items ≡ self.old.calls.items) }
        ensures in_range { OnOk result (at + length from.now < 2 ^ 63) }
        ensures read { self.new.given ≡ self.old.given }
        ensures exact { FailsExactly self.old.fails self.new.fails result }
    {
        if self.fails.next() {
            return Err(Failed);
        }
        match self.record_write(file, at, from) {
            Ok(()) => Ok(()),
            Err(NoMemory) => {
                self.fails.starve();
                Err(Failed)
            }
        }
    }

    fn cut(&mut self, file: FileId, to: u64) -> Result<(), Failed>
        ensures ok { OnOk result (self.new.calls.items ≡ self.old.calls.items ++ Shortened file to ∷ []) }
        ensures err { OnErr result (self.new.calls.items ≡ self.old.calls.items) }
        ensures read { self.new.given ≡ self.old.given }
        ensures exact { FailsExactly self.old.fails self.new.fails result }
    {
        if self.fails.next() {
            return Err(Failed);
        }
        match self.record_cut(file, to) {
            Ok(()) => Ok(()),
            Err(NoMemory) => {
                self.fails.starve();
                Err(Failed)
            }
        }
    }

    fn sync(&mut self, file: FileId) -> Result<(), Failed>
        ensures ok { OnOk result (self.new.calls.items ≡ self.old.calls.items ++ Synced file ∷ []) }
        ensures err { OnErr result (self.new.calls.items ≡ self.old.calls.items) }
        ensures read { self.new.given ≡ self.old.given }
        ensures exact { FailsExactly self.old.fails self.new.fails result }
    {
        if self.fails.next() {
            return Err(Failed);
        }
        match self.record_sync(file) {
            Ok(()) => Ok(()),
            Err(NoMemory) => {
                self.fails.starve();
                Err(Failed)
            }
        }
    }
}
