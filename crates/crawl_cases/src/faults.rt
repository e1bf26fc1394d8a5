// What a scenario makes ready besides its pages: the job, the clock, faults and files.
use crate::clock::{START, SceneClock, moved};
use crate::reply::unusable;
use crate::world::{LinkFaults, World, file_of, volume_with};
use case_file::{Entry, Reply};
use crawl_traits::{FileId, LinkFault};
use std::alloc::Global;
use std::test::Fail;

/// The lines that each job begins with.
const HEAD: &[u8] =
    b"name = \"sample\"\nagent = \"sampler\"\ncontact = \"http://example.org/bot\"\n";

/// Puts a line with its line feed.
fn put_line(text: &mut Vec<u8>, line: &[u8]) -> Result<(), Fail> {
    text.extend_from_slice(line)?;
    text.push(b'\n')?;
    Ok(())
}

/// Puts the seeds of a job.
fn put_seeds(text: &mut Vec<u8>, entry: &Entry) -> Result<(), Fail> {
    put_line(text, b"seeds = \"\"\"")?;
    for seed in &entry.words {
        put_line(text, seed.as_slice())?;
    }
    put_line(text, b"\"\"\"")
}

/// The text of a job: the seeds come before the first line that begins a table.
fn job_text(alloc: Global, entry: &Entry, lines: &str) -> Result<Vec<u8>, Fail> {
    let mut text = HEAD.to_vec(alloc)?;
    let mut has_seeds = false;
    for line in lines.split('\n') {
        if line.starts_with("[[") && !has_seeds {
            has_seeds = true;
            put_seeds(&mut text, entry)?;
        }
        if !line.is_empty() {
            put_line(&mut text, line.as_bytes())?;
        }
    }
    if !has_seeds {
        put_seeds(&mut text, entry)?;
    }
    Ok(text)
}

/// Does `job`.
pub fn set_job(world: &mut World, entry: &Entry) -> Result<Reply, Fail> {
    let lines = str::from_utf8(entry.text.as_slice()).or(Err("a job is no text"))?;
    world.job = job_text(world.alloc, entry, lines)?;
    Ok(Reply::Ready)
}

/// The word of this number as a number that may be negative.
fn signed(entry: &Entry, number: usize) -> Result<i64, Fail> {
    match entry.text_word(number).parse::<i64>() {
        Ok(value) => Ok(value),
        Err(_) => Err(unusable(entry, "there is no number of milliseconds")),
    }
}

/// Does `clock`.
pub fn set_clock(world: &mut World, entry: &Entry) -> Result<Reply, Fail> {
    let now = moved(START, signed(entry, 0)?);
    world.clock = match entry.text_word(1) {
        "" => SceneClock::new(now, 0, Some(0)),
        "still" => SceneClock::new(now, 0, None),
        _ => SceneClock::new(now, signed(entry, 1)?, Some(signed(entry, 2)?)),
    };
    Ok(Reply::Ready)
}

/// The numbers after the first word, each of a call.
fn put_numbers(calls: &mut Vec<u64>, entry: &Entry) -> Result<Reply, Fail> {
    for number in 1..entry.words.len() {
        match entry.number(number) {
            None | Some(0) => return Err(unusable(entry, "calls are counted from 1")),
            Some(call) => calls.push(call)?,
        }
    }
    Ok(Reply::Ready)
}

/// How a call of the link fails.
pub fn link_fault(name: &str) -> Option<LinkFault> {
    match name {
        "refused" => Some(LinkFault::Refused),
        "lost" => Some(LinkFault::Lost),
        "late" => Some(LinkFault::TimedOut),
        _ => None,
    }
}

/// The pairs after the first word, of a call's number and how it fails.
fn put_link_faults(faults: &mut LinkFaults, entry: &Entry) -> Result<Reply, Fail> {
    for number in (1..entry.words.len()).step_by(2) {
        let call = entry.number(number).unwrap_or(0);
        match link_fault(entry.text_word(number.saturating_add(1))) {
            Some(fault) if call > 0 => faults.push((call, fault))?,
            _ => return Err(unusable(entry, "each fault of the link is a number and a word")),
        }
    }
    Ok(Reply::Ready)
}

/// Does `fail`.
pub fn set_faults(world: &mut World, entry: &Entry) -> Result<Reply, Fail> {
    match entry.text_word(0) {
        "volume" => fail_volume(world, entry),
        "source" => put_numbers(&mut world.source_faults, entry),
        "sink" => put_numbers(&mut world.sink_faults, entry),
        "link" => put_link_faults(&mut world.link_faults, entry),
        _ => Err(unusable(entry, "nothing of this name fails")),
    }
}

/// Gives the volume its faults: they are counted from here on.
fn fail_volume(world: &mut World, entry: &Entry) -> Result<Reply, Fail> {
    let mut calls = Vec::new(world.alloc);
    put_numbers(&mut calls, entry)?;
    world.volume_faults = calls;
    let job = world.volume.bytes(FileId::Job).to_vec(world.alloc)?;
    put_file(world, FileId::Job, &job)
}

/// Gives a file this text.
fn put_file(world: &mut World, file: FileId, text: &[u8]) -> Result<Reply, Fail> {
    world.volume = volume_with(world.alloc, &world.volume, file, text, &world.volume_faults)?;
    Ok(Reply::Ready)
}

/// Does `file`.
pub fn set_file(world: &mut World, entry: &Entry) -> Result<Reply, Fail> {
    match file_of(entry.text_word(0)) {
        Some(file) => put_file(world, file, entry.text.as_slice()),
        None => Err(unusable(entry, "there is no file of this name")),
    }
}
