//! `enqueue KNOWN LINES`: a job over a volume in memory enqueues so many addresses, and then so many others. Counts the bytes of
//! the queue that it prints then. With a third argument it prints the milliseconds of processor time of the second `enqueue`, too.
use crate::shared::{count, since, with_millis};
use crawl_memory::{MemClock, MemSink, MemSource, MemVolume};
use job_commands::tend;
use program_status::Status;
use std::alloc::{AllocError, Global};
use std::test::Fail;
use std::time::CpuClock;

/// A job whose scope has each host of a domain.
const JOB: &str =
    "name = \"bench\"\nagent = \"sampler\"\ncontact = \"http://example.org/bot\"\nseeds = \"+http://(test,\"\n";

/// Seed lines of so many hosts from this number on.
fn lines(alloc: Global, from: u64, count: u64) -> Result<String, AllocError> {
    let mut text = String::new(alloc);
    for number in from..from.saturating_add(count) {
        text.push_str(format!(in alloc; "http://h{number}.test/\n")?.as_str())?;
    }
    Ok(text)
}

/// What a command leaves of a volume, and how many bytes it printed.
#[derive(Drop)]
struct Done {
    volume: MemVolume,
    printed: usize,
}

/// What a command leaves, with this text on its source.
fn run_command(alloc: Global, command: &str, text: &str, volume: MemVolume) -> Result<Done, Fail> {
    let mut words = Vec::new(alloc);
    words.push(String::from_str(alloc, command)?)?;
    let mut source = MemSource::new(text.as_bytes().to_vec(alloc)?, Vec::new(alloc));
    let sink = MemSink::new(alloc, Vec::new(alloc));
    let clock = MemClock::at(1_700_000_000_000);
    let tended = tend(alloc, &words, &mut source, volume, sink, &clock);
    match tended.status {
        Status::Done => Ok(Done {
            printed: tended.out.bytes().len(),
            volume: tended.volume,
        }),
        other => Err(Fail::new(format_args!("{command}: status {}", other.code()))),
    }
}

pub fn bench(rt: &impl CpuClock, alloc: Global, words: &[String]) -> Result<String, Fail> {
    let known = count(words, 1)?;
    let more = count(words, 2)?;
    let first = lines(alloc, 0, known)?;
    let second = lines(alloc, known, more)?;
    let begun = run_command(alloc, "init", JOB, MemVolume::new(alloc))?;
    let before = run_command(alloc, "enqueue", first.as_str(), begun.volume)?;
    let start = rt.thread_cpu_time()?;
    let after = run_command(alloc, "enqueue", second.as_str(), before.volume)?;
    let spent = since(rt, start)?;
    let line = format!(in alloc; "{known} + {more}: {} bytes", after.printed)?;
    Ok(with_millis(alloc, words, 3, line, spent)?)
}
