// Commands of the top call.
use crate::reply::{unusable, with_output};
use crate::world::World;
use case_file::{Entry, Reply};
use crawl_memory::{MemSink, MemSource};
use crawl_run::run;
use std::alloc::Global;
use std::sync::Wait;
use std::test::Fail;

/// What a command left: its status, and what it printed.
#[derive(Drop)]
pub struct Came {
    pub code: u8,
    pub out: Vec<u8>,
}

/// Words as texts.
pub fn words_of(alloc: Global, entry: &Entry, words: &[Vec<u8>]) -> Result<Vec<String>, Fail> {
    let mut own = Vec::new(alloc);
    for word in words {
        match str::from_utf8(word.as_slice()) {
            Ok(text) => own.push(String::from_str(alloc, text)?)?,
            Err(_) => return Err(unusable(entry, "a word is no text")),
        }
    }
    Ok(own)
}

/// Whether a command is `init`.
pub fn is_init(words: &[String]) -> bool {
    match words.first() {
        Some(word) => word.as_str() == "init",
        None => false,
    }
}

/// The input of a command: this text, or the job's for `init` without one.
fn input_of(world: &World, words: &[String], text: &[u8]) -> Result<Vec<u8>, Fail> {
    if text.is_empty() && is_init(words) {
        return Ok(world.job.as_slice().to_vec(world.alloc)?);
    }
    Ok(text.to_vec(world.alloc)?)
}

/// Calls the top call, and keeps in the world what it leaves.
pub fn call<R: Wait>(
    rt: &R,
    world: &mut World,
    words: &[String],
    text: &[u8],
) -> Result<Came, Fail> {
    let alloc = world.alloc;
    let input = input_of(world, words, text)?;
    let mut source = MemSource::new(input, world.take_source_faults());
    let sink = MemSink::new(alloc, world.take_sink_faults());
    let mut links = Vec::new(alloc);
    links.push(world.new_link()?)?;
    let volume = world.take_volume();
    let mut ran = run(
        rt,
        alloc,
        words,
        &mut source,
        volume,
        sink,
        links,
        &world.clock,
    );
    if let Some(link) = ran.links.pop() {
        world.link = link;
    }
    world.volume = ran.volume;
    Ok(Came {
        code: ran.status.code(),
        out: ran.out.bytes().to_vec(alloc)?,
    })
}

/// Does `run`.
pub fn run_words<R: Wait>(rt: &R, world: &mut World, entry: &Entry) -> Result<Reply, Fail> {
    let alloc = world.alloc;
    let words = words_of(alloc, entry, &entry.words)?;
    let ended = call(rt, world, &words, entry.text.as_slice())?;
    let status = format!(in alloc; "status {}", ended.code)?;
    Ok(Reply::Said(with_output(alloc, status.as_str(), &ended.out)?))
}
