// What a scenario makes ready, and what its last command left.
use crate::clock::{START, SceneClock};
use crate::pages::{Answer, site_of};
use crawl_memory::{MemLink, MemVolume, Site};
use crawl_traits::{FileId, LinkFault, Volume};
use std::alloc::Global;
use std::mem::replace;
use std::test::Fail;

/// The journal and the WARC file of a scenario.
pub const JOURNAL: FileId = FileId::Journal(0);

pub const WARC: FileId = FileId::Warc(0);

/// The calls of the link that fail, and how.
pub type LinkFaults = Vec<(u64, LinkFault)>;

/// A scenario so far.
#[derive(Drop)]
pub struct World {
    pub alloc: Global,
    /// The text of its job; empty where it has none.
    pub job: Vec<u8>,
    pub pages: Vec<Answer>,
    pub clock: SceneClock,
    pub volume: MemVolume,
    /// The calls of the volume that fail, counted from when it was made.
    pub volume_faults: Vec<u64>,
    /// The calls that fail within the next command.
    pub source_faults: Vec<u64>,
    pub sink_faults: Vec<u64>,
    pub link_faults: LinkFaults,
    /// The link of the last command.
    pub link: MemLink,
}

/// A scenario that begins.
pub fn new_world(alloc: Global) -> World {
    World {
        alloc,
        job: Vec::new(alloc),
        pages: Vec::new(alloc),
        clock: SceneClock::new(START, 0, Some(0)),
        volume: MemVolume::new(alloc),
        volume_faults: Vec::new(alloc),
        source_faults: Vec::new(alloc),
        sink_faults: Vec::new(alloc),
        link_faults: Vec::new(alloc),
        link: MemLink::new(alloc, Site::new(alloc), Vec::new(alloc)),
    }
}

impl World {
    /// The calls of the source, and then of the sink, that fail within the command that begins.
    pub fn take_source_faults(&mut self) -> Vec<u64> {
        replace(&mut self.source_faults, Vec::new(self.alloc))
    }

    pub fn take_sink_faults(&mut self) -> Vec<u64> {
        replace(&mut self.sink_faults, Vec::new(self.alloc))
    }

    /// A link to the pages, with the faults of the command that begins.
    pub fn new_link(&mut self) -> Result<MemLink, Fail> {
        let faults = replace(&mut self.link_faults, Vec::new(self.alloc));
        let site = site_of(self.alloc, &self.pages)?;
        Ok(MemLink::new(self.alloc, site, faults))
    }

    /// The volume, in whose place there is a new one.
    pub fn take_volume(&mut self) -> MemVolume {
        replace(&mut self.volume, MemVolume::new(self.alloc))
    }

    /// Puts the same files on a volume that does not fail.
    pub fn mend_volume(&mut self) -> Result<(), Fail> {
        let job = self.volume.bytes(FileId::Job);
        self.volume = volume_with(self.alloc, &self.volume, FileId::Job, job, &[])?;
        Ok(())
    }

    /// The journal as text.
    pub fn journal(&self) -> Result<&str, Fail> {
        Ok(str::from_utf8(self.volume.bytes(JOURNAL)).or(Err("the journal is no text"))?)
    }
}

/// What a file of a volume has once the text of one is changed.
fn changed<'a>(volume: &'a MemVolume, file: FileId, to: FileId, text: &'a [u8]) -> &'a [u8] {
    if file == to {
        return text;
    }
    volume.bytes(file)
}

/// How many calls put the files on a new volume.
const CALLS: u64 = 3;

/// A volume with the files of another, of which one has this text. Its calls of these numbers fail, counted from the next one.
pub fn volume_with(
    alloc: Global,
    old: &MemVolume,
    file: FileId,
    text: &[u8],
    faults: &[u64],
) -> Result<MemVolume, Fail> {
    let mut listed = Vec::new(alloc);
    for number in faults {
        listed.push(number.saturating_add(CALLS))?;
    }
    let mut volume = MemVolume::with_faults(alloc, listed);
    volume.write_at(FileId::Job, 0, changed(old, FileId::Job, file, text))?;
    volume.write_at(JOURNAL, 0, changed(old, JOURNAL, file, text))?;
    volume.write_at(WARC, 0, changed(old, WARC, file, text))?;
    Ok(volume)
}

/// The file of this name.
pub fn file_of(name: &str) -> Option<FileId> {
    match name {
        "job" => Some(FileId::Job),
        "journal" => Some(JOURNAL),
        "warc" => Some(WARC),
        _ => None,
    }
}
