// Statuses: their numbers, and their lines.
use case_file::{Entry, Reply};
use crawl_memory::MemSink;
use crawl_traits::FileId;
use job_order::{JobFault, Name};
use program_status::{Status, say};
use std::alloc::Global;
use std::test::Fail;

/// What is printed of a status.
fn printed(alloc: Global, status: &Status) -> Result<Vec<u8>, Fail> {
    let mut out = MemSink::new(alloc, Vec::new(alloc));
    say(&mut out, status);
    Ok(out.bytes().to_vec(alloc)?)
}

/// The line of a status, without the line feed at its end.
pub fn line_of(alloc: Global, status: &Status) -> Result<Vec<u8>, Fail> {
    let mut line = printed(alloc, status)?;
    match line.pop() {
        Some(b'\n') => Ok(line),
        _ => Err(Fail::from("a line is not ended")),
    }
}

/// The number that a word says.
fn number(entry: &Entry, word: usize) -> Result<u64, Fail> {
    Ok(entry.number(word).ok_or("a word is no number")?)
}

/// The number of 32 bits that a word says.
fn small(entry: &Entry, word: usize) -> Result<u32, Fail> {
    Ok(entry.text_word(word).parse::<u32>()?)
}

/// The name in a refusal.
fn name(alloc: Global, entry: &Entry) -> Result<Name, Fail> {
    Ok(Name::from(entry.word(1).to_vec(alloc)?))
}

/// A refusal of a job.
fn refusal(alloc: Global, entry: &Entry) -> Result<JobFault, Fail> {
    match entry.text_word(0) {
        "TooLong" => Ok(JobFault::TooLong),
        "NotToml" => Ok(JobFault::NotToml),
        "UnknownName" => Ok(JobFault::UnknownName {
            name: name(alloc, entry)?,
        }),
        "Missing" => Ok(JobFault::Missing {
            name: name(alloc, entry)?,
        }),
        "OutOfRange" => Ok(JobFault::OutOfRange {
            name: name(alloc, entry)?,
        }),
        "BadSeed" => Ok(JobFault::BadSeed {
            line: small(entry, 1)?,
        }),
        "BadPattern" => Ok(JobFault::BadPattern {
            index: small(entry, 1)? as usize,
        }),
        "NoMemory" => Ok(JobFault::NoMemory),
        _ => Err(Fail::from("no such status")),
    }
}

/// `damaged AT FILE NUMBER`
fn damaged(entry: &Entry) -> Result<Status, Fail> {
    let at = number(entry, 1)?;
    let file = match entry.text_word(2) {
        "job" => FileId::Job,
        "manifest" => FileId::Manifest,
        "journal" => FileId::Journal(small(entry, 3)?),
        "checkpoint" => FileId::Checkpoint(small(entry, 3)?),
        _ => FileId::Warc(small(entry, 3)?),
    };
    Ok(Status::Damaged { file, at })
}

/// `full KNOWN ADDS`
fn full(entry: &Entry) -> Result<Status, Fail> {
    Ok(Status::Full {
        known: number(entry, 1)?,
        adds: number(entry, 2)?,
    })
}

/// `usage WORD`
fn usage(entry: &Entry) -> Result<Status, Fail> {
    Ok(Status::Usage(small(entry, 1)? as usize))
}

/// The status that a case names.
fn status_of(alloc: Global, entry: &Entry) -> Result<Status, Fail> {
    match entry.text_word(0) {
        "done" => Ok(Status::Done),
        "usage" => usage(entry),
        "volume" => Ok(Status::VolumeFault),
        "damaged" => damaged(entry),
        "sink" => Ok(Status::SinkFault),
        "full" => full(entry),
        "memory" => Ok(Status::NoMemory),
        "no-job" => Ok(Status::NoJob),
        "job-there" => Ok(Status::JobThere),
        "source" => Ok(Status::SourceFault),
        _ => Ok(Status::JobRefused(refusal(alloc, entry)?)),
    }
}

/// `status NAME WORD ..`: the number with which the program ends, and on the lines behind it all that it prints.
pub fn status(alloc: Global, entry: &Entry) -> Result<Reply, Fail> {
    let status = status_of(alloc, entry)?;
    let code = status.code();
    let mut said = format!(in alloc; "{code}\n")?.into_bytes();
    said.append(&mut printed(alloc, &status)?)?;
    Ok(Reply::Said(said))
}
