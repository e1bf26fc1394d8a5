//! `job ROUNDS FILE ..`: each file is read as a job text, so many times over. Counts the seeds of each.
use crate::shared::count;
use job_order::Job;
use std::alloc::Global;
use std::fs;
use std::rt::Files;
use std::test::Fail;

/// How many seeds the job of a text has.
fn seeds(alloc: Global, text: &str) -> Result<usize, Fail> {
    match Job::read(alloc, text.as_bytes()) {
        Ok(job) => Ok(job.seeds.as_slice().len()),
        Err(_) => Err(Fail::new("it is no job")),
    }
}

/// The line of a text that is read so many times over.
fn line(alloc: Global, path: &str, text: &str, rounds: u64) -> Result<String, Fail> {
    let mut found = 0;
    for _ in 0..rounds {
        found = seeds(alloc, text)?;
    }
    Ok(format!(in alloc; "{path}: {found}\n")?)
}

pub fn bench<R: AllocGlobal + Files>(
    rt: &R,
    alloc: Global,
    words: &[String],
) -> Result<String, Fail> {
    let rounds = count(words, 1)?;
    let mut lines = String::new(alloc);
    for path in words.iter().skip(2) {
        let text = fs::read_to_string(rt, path.as_str())?;
        lines.push_str(line(alloc, path.as_str(), text.as_str(), rounds)?.as_str())?;
    }
    Ok(lines)
}
