// What the journal and the link say of a crawl.
use crate::clock::START;
use crate::reply::{add_line, said, unusable};
use crate::world::{World, file_of};
use case_file::{Entry, Reply};
use crawl_traits::Exchange;
use std::alloc::Global;
use std::collections::BTreeMap;
use std::test::Fail;

/// The lines of a text that end with a line feed, without the last one's.
pub fn ended_lines(text: &str) -> &str {
    match text.rsplit_once('\n') {
        Some((whole, _)) => whole,
        None => "",
    }
}

/// The words of an entry, with a space between two.
fn joined(alloc: Global, words: &[Vec<u8>]) -> Result<Vec<u8>, Fail> {
    let mut all = Vec::new(alloc);
    for word in words {
        if !all.is_empty() {
            all.push(b' ')?;
        }
        all.extend_from_slice(word.as_slice())?;
    }
    Ok(all)
}

/// Does `journal`.
pub fn journal(world: &World, entry: &Entry) -> Result<Reply, Fail> {
    let front = joined(world.alloc, &entry.words)?;
    let mut lines = Vec::new(world.alloc);
    for line in ended_lines(world.journal()?).split('\n') {
        if line.as_bytes().starts_with(&front) {
            add_line(&mut lines, line.as_bytes())?;
        }
    }
    Ok(Reply::Said(lines))
}

/// Does `count`.
pub fn count(world: &World, entry: &Entry) -> Result<Reply, Fail> {
    let front = joined(world.alloc, &entry.words)?;
    let mut count = 0u64;
    for line in ended_lines(world.journal()?).split('\n') {
        if line.as_bytes().starts_with(&front) {
            count = count.saturating_add(1);
        }
    }
    said(format!(in world.alloc; "{count}")?)
}

/// The field of this number of a journal's line, from 0.
fn field(line: &str, number: usize) -> &str {
    line.split(' ').skip(number).next().unwrap_or("")
}

/// Puts a moment, in milliseconds after the start.
fn put_moment(alloc: Global, times: &mut Vec<u8>, moment: u64) -> Result<(), Fail> {
    if !times.is_empty() {
        times.push(b' ')?;
    }
    if moment < START {
        times.push(b'-')?;
    }
    let digits = format!(in alloc; "{}", moment.abs_diff(START))?;
    times.extend_from_slice(digits.as_bytes())?;
    Ok(())
}

/// Does `emits`.
pub fn emits(world: &World) -> Result<Reply, Fail> {
    let mut times = Vec::new(world.alloc);
    for line in ended_lines(world.journal()?).split('\n') {
        if line.starts_with("Fe ") {
            let moment = field(line, 4).parse::<u64>()?;
            put_moment(world.alloc, &mut times, moment)?;
        }
    }
    Ok(Reply::Said(times))
}

/// How many lines of a journal are a success of each address that has any.
pub fn successes(alloc: Global, journal: &str) -> Result<BTreeMap<String, u64>, Fail> {
    let mut counts = BTreeMap::new(alloc);
    for line in ended_lines(journal).split('\n') {
        if line.starts_with("Fs ") {
            let uri = String::from_str(alloc, field(line, 1))?;
            let count = counts.entry(uri)?.or_insert(0u64);
            *count = count.saturating_add(1);
        }
    }
    Ok(counts)
}

/// Does `bytes`.
pub fn size(world: &World, entry: &Entry) -> Result<Reply, Fail> {
    match file_of(entry.text_word(0)) {
        Some(file) => said(format!(in world.alloc; "{}", world.volume.bytes(file).len())?),
        None => Err(unusable(entry, "there is no file of this name")),
    }
}

/// Does `text`.
pub fn text(world: &World, entry: &Entry) -> Result<Reply, Fail> {
    match file_of(entry.text_word(0)) {
        Some(file) => Ok(Reply::Said(world.volume.bytes(file).to_vec(world.alloc)?)),
        None => Err(unusable(entry, "there is no file of this name")),
    }
}

/// The first line of a block of text, with no line ending.
pub fn first_line(block: &[u8]) -> &[u8] {
    for at in 0..block.len() {
        if matches!(block[at], b'\r' | b'\n') {
            return &block[..at];
        }
    }
    block
}

/// The line of a connection: to whom, and the request line.
fn put_asked(alloc: Global, lines: &mut Vec<u8>, exchange: &Exchange) -> Result<(), Fail> {
    add_line(lines, exchange.host.as_slice())?;
    let port = format!(in alloc; ":{}", exchange.port)?;
    lines.extend_from_slice(port.as_bytes())?;
    let taken = exchange.taken.as_slice();
    if !taken.is_empty() {
        lines.push(b' ')?;
        lines.extend_from_slice(first_line(taken))?;
    }
    Ok(())
}

/// Does `asked`.
pub fn asked(world: &World) -> Result<Reply, Fail> {
    let mut lines = Vec::new(world.alloc);
    for exchange in world.link.exchanges() {
        put_asked(world.alloc, &mut lines, exchange)?;
    }
    Ok(Reply::Said(lines))
}

/// The place of a number that counts from 1.
pub fn place(entry: &Entry) -> usize {
    let number = entry.text_word(0).parse::<usize>().unwrap_or(0);
    number.wrapping_sub(1)
}

/// Does `request`.
pub fn request(world: &World, entry: &Entry) -> Result<Reply, Fail> {
    match world.link.exchanges().get(place(entry)) {
        Some(exchange) => {
            let taken = exchange.taken.as_slice();
            Ok(Reply::Said(taken.to_vec(world.alloc)?))
        }
        None => Err(unusable(entry, "there is no connection of this number")),
    }
}
