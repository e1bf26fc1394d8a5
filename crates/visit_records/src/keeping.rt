// What is written of an item.
ghost use Rattle.std.specs.Prelude.{◌≡◌, ◌≢◌, ◌≤◌, ◌++◌, ℕ, List, length, take, IsTrue, OnOk, OnErr, Err};
ghost use Rattle.crawl_kinds.specs.declared.event.Event.{Event};
ghost use Rattle.crawl_traits.specs.Causes.{Rose, HasCause};
ghost use Rattle.crawl_traits.specs.declared.file.FileId.{FileId as File};
ghost use Rattle.journal_valid.specs.Valid.{IsSpelled};
ghost use Rattle.recover_journal.specs.Rest.{Rests};
ghost use Rattle.recover_journal.specs.declared.journal.Journal.{Journal as Log};
ghost use Rattle.visit_spec.specs.Crawled.{warc_file};
ghost use Rattle.visit_records.specs.Written.{IsCitedWhole, Kept};

use crawl_kinds::Edge;
use crawl_traits::{Failed, FileId, Sink, Volume, cut_synced, write_synced, write_whole};
use gate_log::Frame;
use recover_journal::Journal;

/// What is to be written of an item that came to its end: its record, which is empty where nothing is recorded, and where it is
/// to stand; the block of its events; and its line, which is empty where it is tried again.
#[derive(Drop)]
pub struct Prepared {
    pub place: Edge,
    pub record: Vec<u8>,
    pub frame: Frame,
    pub line: Vec<u8>,
}

/// What failed in writing.
#[derive(Clone, Copy, Debug, PartialEq, Eq)]
pub enum KeepFault {
    /// The volume.
    Volume,
    /// The output.
    Sink,
}

/// Cuts the WARC file of a place to it, in bytes, where it is longer.
pub fn cut_back<V: Volume>(volume: &mut V, place: Edge) -> Result<(), Failed>
    ensures cut { IsTrue (V.tells volume.old) → place.end ≤ length (V.contents volume.old (warc_file place))
        → OnOk result (V.contents volume.new (warc_file place) ≡ take place.end (V.contents volume.old (warc_file place))) }
    ensures others { IsTrue (V.tells volume.old) → (f : File) → f ≢ warc_file place → V.contents volume.new f ≡ V.contents volume.old f }
    ensures rests { (journal : Log) (events : List Event) → Rests V.Volume journal volume.old events → Rests V.Volume journal volume.new events }
    ensures tells { V.tells volume.new ≡ V.tells volume.old }
    ensures cause { HasCause (V.faults volume.old) (V.faults volume.new) result }
{
    let file = FileId::Warc(place.file);
    let size = match volume.size(file) {
        Ok(size) => size,
        Err(Failed) => return Err(Failed),
    };
    if size <= place.end {
        return Ok(());
    }
    cut_synced(volume, file, place.end)
}

/// Writes a record at its place, and syncs it. An empty one is not written.
fn put_record<V: Volume>(volume: &mut V, place: Edge, bytes: &[u8]) -> Result<(), Failed>
    ensures grown { IsTrue (V.tells volume.old) → length (V.contents volume.old (warc_file place)) ≡ place.end
        → OnOk result (V.contents volume.new (warc_file place) ≡ V.contents volume.old (warc_file place) ++ bytes.now) }
    ensures others { IsTrue (V.tells volume.old) → (f : File) → f ≢ warc_file place → V.contents volume.new f ≡ V.contents volume.old f }
    ensures rests { (journal : Log) (events : List Event) → Rests V.Volume journal volume.old events → Rests V.Volume journal volume.new events }
    ensures tells { V.tells volume.new ≡ V.tells volume.old }
    ensures cause { HasCause (V.faults volume.old) (V.faults volume.new) result }
{
    if bytes.is_empty() {
        return Ok(());
    }
    write_synced(volume, FileId::Warc(place.file), place.end, bytes)
}

/// Writes what is to be written of an item: its record at the end of its WARC file, then its block into the journal, then its
/// line. It takes no memory. After a fault open the crawl again.
pub fn keep<V: Volume, W: Sink>(
    journal: &mut Journal,
    volume: &mut V,
    out: &mut W,
    own: &Prepared,
) -> Result<(), KeepFault>
    ensures kept { IsTrue (V.tells volume.old) → (held more : List Event) → Rests V.Volume journal.old volume.old held → IsSpelled more own.now.frame
        → length (V.contents volume.old (warc_file own.now.place)) ≡ own.now.place.end
        → OnOk result (Kept V.Volume journal.new volume.old volume.new (warc_file own.now.place) (held ++ more) own.now.record.items) }
    ensures line { IsTrue (W.tells out.old) → OnOk result (W.written out.new ≡ W.written out.old ++ own.now.line.items) }
    ensures front { IsTrue (W.tells out.old) → OnErr result ((n : ℕ) × (W.written out.new ≡ W.written out.old ++ take n own.now.line.items)) }

    // The journal names no record that is not whole.
    ensures cited { IsTrue (V.tells volume.old) → length (V.contents volume.old (warc_file own.now.place)) ≡ own.now.place.end
        → OnErr result (IsCitedWhole V.Volume volume.old volume.new (warc_file own.now.place) own.now.record.items) }
    ensures tells { (V.tells volume.new ≡ V.tells volume.old) × (W.tells out.new ≡ W.tells out.old) }
    ensures later { (V.faults volume.old ≤ V.faults volume.new) × (W.faults out.old ≤ W.faults out.new) }
    ensures volume { result ≡ Err KeepFault.Volume → Rose (V.faults volume.old) (V.faults volume.new) }
    ensures sink { result ≡ Err KeepFault.Sink → Rose (W.faults out.old) (W.faults out.new) }
{
    match put_record(volume, own.place, &own.record) {
        Ok(()) => {}
        Err(Failed) => return Err(KeepFault::Volume),
    }
    match journal.append(volume, &own.frame) {
        Ok(()) => {}
        Err(_) => return Err(KeepFault::Volume),
    }
    match write_whole(out, &own.line) {
        Ok(()) => Ok(()),
        Err(Failed) => Err(KeepFault::Sink),
    }
}
