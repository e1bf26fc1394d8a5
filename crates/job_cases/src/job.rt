// Job texts: what is read of them, or the line of their refusal.
use crate::status::line_of;
use crate::values::{number_of, takes, text_of};
use case_file::{Entry, Reply};
use crawl_kinds::Settings;
use job_order::{Job, JobFault};
use program_status::Status;
use std::alloc::Global;
use std::test::Fail;

/// Puts a line of the sample job, unless the first word of the case leaves it out.
fn put(text: &mut Vec<u8>, entry: &Entry, left_out: &[u8], line: &[u8]) -> Result<(), Fail> {
    if entry.word(0) != left_out {
        text.extend_from_slice(line)?;
    }
    Ok(())
}

/// The lines of the sample job, without the one that the case leaves out, and the text of the case.
fn sample_text(alloc: Global, entry: &Entry) -> Result<Vec<u8>, Fail> {
    let mut text = Vec::new(alloc);
    put(&mut text, entry, b"-name", b"name = 'sample'\n")?;
    put(&mut text, entry, b"-agent", b"agent = 'sampler'\n")?;
    put(
        &mut text,
        entry,
        b"-contact",
        b"contact = 'http://example.org/bot'\n",
    )?;
    put(
        &mut text,
        entry,
        b"-seeds",
        b"seeds = \"\"\"\nhttp://a.test/\nhttp://b.test/x\n\"\"\"\n",
    )?;
    text.extend_from_slice(entry.text.as_slice())?;
    Ok(text)
}

/// The settings of the sample job.
pub fn sample_settings(alloc: Global, entry: &Entry) -> Result<Settings, Fail> {
    match Job::read(alloc, sample_text(alloc, entry)?.as_slice()) {
        Ok(job) => Ok(job.settings),
        Err(_) => Err(Fail::from("the sample is refused")),
    }
}

/// What a word asks of a job: whether its scope takes an address, a number or a text.
fn value(alloc: Global, job: &Job, name: &str) -> Result<String, Fail> {
    if name.contains("://") {
        return takes(alloc, &job.scope, name);
    }
    match number_of(&job.settings, name) {
        Some(number) => Ok(format!(in alloc; "{number}")?),
        None => text_of(alloc, job, name),
    }
}

/// `ok`, and what the words of a case ask of a job.
fn asked(alloc: Global, job: &Job, entry: &Entry) -> Result<Reply, Fail> {
    let mut said = Vec::from_slice(alloc, b"ok")?;
    for word in &entry.words {
        if !word.as_slice().starts_with(b"-") {
            said.push(b' ')?;
            let value = value(alloc, job, str::from_utf8(word.as_slice())?)?;
            said.extend_from_slice(value.as_bytes())?;
        }
    }
    Ok(Reply::Said(said))
}

/// What comes of a job text.
fn answer(alloc: Global, text: &[u8], entry: &Entry) -> Result<Reply, Fail> {
    match Job::read(alloc, text) {
        Ok(job) => asked(alloc, &job, entry),
        Err(fault) => Ok(Reply::Said(line_of(alloc, &Status::JobRefused(fault))?)),
    }
}

/// `job WORD ..`: what comes of the text of a case.
pub fn job(alloc: Global, entry: &Entry) -> Result<Reply, Fail> {
    answer(alloc, entry.text.as_slice(), entry)
}

/// `sample WORD ..`: what comes of the sample job and the text of a case behind it. `-NAME` as the first word leaves the line of
/// a name out.
pub fn sample(alloc: Global, entry: &Entry) -> Result<Reply, Fail> {
    answer(alloc, sample_text(alloc, entry)?.as_slice(), entry)
}

/// Whether a fault names this setting for what its value is.
fn is_out_of_range(fault: &JobFault, name: &[u8]) -> bool {
    match fault {
        JobFault::OutOfRange { name: own } => own.as_slice() == name,
        _ => false,
    }
}

/// Whether a job text is read, or refused by this name for what its value is.
fn taken(alloc: Global, text: &[u8], name: &[u8]) -> &'static [u8] {
    match Job::read(alloc, text) {
        Ok(_job) => b" taken",
        Err(fault) => {
            if is_out_of_range(&fault, name) {
                b" OutOfRange"
            } else {
                b" refused"
            }
        }
    }
}

/// `setting NAME VALUE ..`: whether the sample job with each of these values is read.
pub fn setting(alloc: Global, entry: &Entry) -> Result<Reply, Fail> {
    let sample = sample_text(alloc, entry)?;
    let mut said = Vec::from_slice(alloc, entry.word(0))?;
    for value in entry.words.iter().skip(1) {
        let mut text = sample.clone()?;
        text.extend_from_slice(entry.word(0))?;
        text.extend_from_slice(b" = ")?;
        text.extend_from_slice(value.as_slice())?;
        said.extend_from_slice(taken(alloc, text.as_slice(), entry.word(0)))?;
    }
    Ok(Reply::Said(said))
}
