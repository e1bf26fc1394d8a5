// A crawl with no top call above.
use crate::clock::SceneClock;
use crate::reply::{unusable, with_output};
use crate::world::World;
use case_file::{Entry, Reply};
use crawl_memory::{MemLink, MemSink, MemVolume};
use crawl_traits::Clock;
use job_ranges::job_is_in_range;
use open_crawl::{OpenCrawl, read_job};
use polite_crawl::{Ended, Why, crawl};
use std::alloc::Global;
use std::test::Fail;

/// How a crawl ended, in words.
fn ended_text(alloc: Global, ended: Result<Ended, Why>) -> Result<String, Fail> {
    let text = match ended {
        Ok(Ended::Over) => "over",
        Ok(Ended::Spent) => "spent",
        Err(Why::Volume) => "volume fault",
        Err(Why::Sink) => "sink fault",
        Err(Why::NoMemory) => "no memory",
        Err(Why::Full { known, adds }) => {
            return Ok(format!(in alloc; "full {known} {adds}")?);
        }
    };
    Ok(String::from_str(alloc, text)?)
}

/// Opens the crawl that a volume keeps, and takes at most so many turns; none where it can't be opened.
fn go_on(
    alloc: Global,
    volume: &mut MemVolume,
    out: &mut MemSink,
    link: &mut MemLink,
    clock: &SceneClock,
    turns: u64,
) -> Option<Result<Ended, Why>> {
    job_is_in_range();
    let Ok(job) = read_job(alloc, volume) else {
        return None;
    };
    let Ok(mut own) = OpenCrawl::open(alloc, volume, job, clock.now()) else {
        return None;
    };
    Some(crawl(alloc, &mut own, volume, out, link, clock, turns))
}

/// Goes on with the crawl of a scenario for so many turns.
fn take_turns(world: &mut World, turns: u64) -> Result<Vec<u8>, Fail> {
    let alloc = world.alloc;
    let mut out = MemSink::new(alloc, world.take_sink_faults());
    world.link = world.new_link()?;
    let ended = go_on(
        alloc,
        &mut world.volume,
        &mut out,
        &mut world.link,
        &world.clock,
        turns,
    );
    let text = match ended {
        Some(ended) => ended_text(alloc, ended)?,
        None => String::from_str(alloc, "unopened")?,
    };
    with_output(alloc, text.as_str(), out.bytes())
}

/// Does `turns`.
pub fn turn(world: &mut World, entry: &Entry) -> Result<Reply, Fail> {
    match entry.number(0) {
        Some(turns) => Ok(Reply::Said(take_turns(world, turns)?)),
        None => Err(unusable(entry, "there is no number of turns")),
    }
}
