// Seeds, seed lines and the prefixes that they make.
use crate::answer::{reply, shown};
use crate::words::asked;
use case_file::{Entry, Reply};
use crawl_kinds::{Text, TextForm};
use seed_list::{SeedList, count_seeds, read_seed_list, read_seeds};
use std::alloc::Global;
use std::test::Fail;
use uri_form::{seed_prefix, seed_uri};

/// The most bytes, and the most seeds, of a job's seed lines.
const MOST_TEXT: usize = 1_048_576;

const MOST_SEEDS: usize = 200_000;

/// `seed TEXT`: the address of a seed.
pub fn seed(alloc: Global, entry: &Entry) -> Result<Reply, Fail> {
    reply(shown(alloc, seed_uri(alloc, asked(entry, 0)))?)
}

/// `prefix TEXT`: the prefix that a seed makes.
pub fn prefix(alloc: Global, entry: &Entry) -> Result<Reply, Fail> {
    reply(shown(alloc, seed_prefix(alloc, asked(entry, 0)))?)
}

/// Puts a line at the end of a text.
fn put_line(out: &mut String, line: &str) -> Result<(), Fail> {
    if !out.is_empty() {
        out.push('\n')?;
    }
    out.push_str(line)?;
    Ok(())
}

/// Puts texts at the end of a text, a line for each.
fn put_lines<F: TextForm>(out: &mut String, texts: &[Text<F>]) -> Result<(), Fail> {
    for text in texts {
        put_line(out, text.as_str())?;
    }
    Ok(())
}

/// The seeds and then the prefixes of a job's seed lines, a line for each.
fn lines_of(alloc: Global, list: &SeedList) -> Result<String, Fail> {
    let mut out = String::new(alloc);
    put_lines(&mut out, list.seeds.as_slice())?;
    put_lines(&mut out, list.prefixes.as_slice())?;
    Ok(out)
}

/// `seeds`: the seeds and then the prefixes of a job's seed lines, or why they are refused.
pub fn listed(alloc: Global, entry: &Entry) -> Result<Reply, Fail> {
    let text = str::from_utf8(entry.text.as_slice())?;
    if text.len() > MOST_TEXT || count_seeds(text.as_bytes()) > MOST_SEEDS {
        return reply(String::from_str(alloc, "not to be read")?);
    }
    match read_seed_list(alloc, text) {
        Ok(list) => reply(lines_of(alloc, &list)?),
        Err(fault) => reply(format!(in alloc; "{fault:?}")?),
    }
}

/// `added`: the seeds of lines that are added to a job, or why they are refused.
pub fn added(alloc: Global, entry: &Entry) -> Result<Reply, Fail> {
    let mut out = String::new(alloc);
    match read_seeds(alloc, entry.text.as_slice()) {
        Ok(seeds) => put_lines(&mut out, seeds.as_slice())?,
        Err(fault) => write!(out, "{fault:?}")?,
    }
    reply(out)
}

/// `count`: how many lines of a text are seed lines.
pub fn count(alloc: Global, entry: &Entry) -> Result<Reply, Fail> {
    let count = count_seeds(entry.text.as_slice());
    reply(format!(in alloc; "{count}")?)
}
