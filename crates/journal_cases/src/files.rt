// Files of the journal in memory: opened, and added to.
use crate::lines::{block_events, lines_of};
use case_file::{Entry, Reply};
use crawl_memory::MemVolume;
use crawl_traits::{FileId, StoreFault, Volume};
use journal_lines::examples_are_spelled;
use recover_journal::{Journal, Opened, a_journal_at_rest, one_journal, read_all};
use std::alloc::Global;
use std::test::Fail;

const JOURNAL: FileId = FileId::Journal(0);

/// The laws of journals hold of those in memory, and the worked examples of their lines. It does nothing.
pub fn laws_of_journals() {
    one_journal();
    a_journal_at_rest::<MemVolume>();
    examples_are_spelled();
}

/// A volume whose journal has these bytes.
fn holding(alloc: Global, bytes: &[u8]) -> Result<MemVolume, Fail> {
    let mut volume = MemVolume::new(alloc);
    volume.write_at(JOURNAL, 0, bytes)?;
    Ok(volume)
}

/// Where a journal is damaged.
fn damage(alloc: Global, fault: StoreFault) -> Result<String, Fail> {
    match fault {
        StoreFault::Damaged {
            file: FileId::Journal(0),
            at,
        } => Ok(format!(in alloc; "damaged at {at}")?),
        other => Err(Fail::from(other)),
    }
}

/// What reading alone finds in the file: the lines of its events, or where it is damaged.
fn found(alloc: Global, volume: &mut MemVolume) -> Result<Vec<u8>, Fail> {
    match read_all(alloc, volume) {
        Ok(events) => lines_of(alloc, events.as_slice()),
        Err(fault) => Ok(damage(alloc, fault)?.into_bytes()),
    }
}

/// The gates of the blocks of events, one for each event, and the lines of these.
#[derive(Drop)]
struct Seen {
    gates: String,
    lines: Vec<u8>,
}

fn seen_of(alloc: Global, opened: &Opened) -> Result<Seen, Fail> {
    let mut gates = String::from_str(alloc, "gates")?;
    for gate in opened.gates.as_slice() {
        gates.push_str(format!(in alloc; " {gate}")?.as_str())?;
    }
    Ok(Seen {
        gates,
        lines: lines_of(alloc, opened.events.as_slice())?,
    })
}

/// What opening finds, which is what reading found: else it fails.
fn open(alloc: Global, volume: &mut MemVolume) -> Result<String, Fail> {
    let found = found(alloc, volume)?;
    let (said, same) = match Journal::open(alloc, volume) {
        Ok((_journal, opened)) => {
            let seen = seen_of(alloc, &opened)?;
            (seen.gates, seen.lines)
        }
        Err(fault) => (damage(alloc, fault)?, damage(alloc, fault)?.into_bytes()),
    };
    if found.as_slice() != same.as_slice() {
        return Err(Fail::from("it is read otherwise than it is opened"));
    }
    Ok(said)
}

/// What opening finds in a volume, and on the lines behind that the whole file as it was left.
fn described(alloc: Global, volume: &mut MemVolume) -> Result<Reply, Fail> {
    let mut said = open(alloc, volume)?;
    if said.as_str().starts_with("gates") {
        said.push('\n')?;
        said.push_str(str::from_utf8(volume.bytes(JOURNAL))?)?;
    }
    Ok(Reply::Said(said.into_bytes()))
}

/// The gates of the events of a file, and what the file has after opening; or where it is damaged.
pub fn opened(alloc: Global, entry: &Entry) -> Result<Reply, Fail> {
    let mut volume = holding(alloc, entry.text.as_slice())?;
    described(alloc, &mut volume)
}

/// Adds the events of these lines as a block.
fn add(
    alloc: Global,
    journal: &mut Journal,
    volume: &mut MemVolume,
    lines: &str,
) -> Result<(), Fail> {
    let events = block_events(alloc, lines.as_bytes())?;
    let block = Journal::block(alloc, events.as_slice())?;
    journal.append(volume, &block)?;
    Ok(())
}

/// Adds blocks of lines, which a line `+` keeps apart, to a journal of none; then what opening finds, as `opened` says it.
pub fn appended(alloc: Global, entry: &Entry) -> Result<Reply, Fail> {
    let mut volume = MemVolume::new(alloc);
    let (mut journal, _none) = Journal::open(alloc, &mut volume)?;
    for lines in str::from_utf8(entry.text.as_slice())?.split("+\n") {
        add(alloc, &mut journal, &mut volume, lines)?;
    }
    described(alloc, &mut volume)
}
