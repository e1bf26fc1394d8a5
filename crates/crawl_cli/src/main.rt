//! The crawler's program: `crawl_cli FOLDER COMMAND`.
#![tactic(auto)]

mod adapters;

use adapters::{StdSink, StdSource};
use crawl_memory::{MemClock, MemLink, MemVolume, Site};
use crawl_run::run;
use std::alloc::Global;
use std::process::ExitCode;
use std::{env, io};

/// The moment of the clock in memory: 14 November 2023.
const START: u64 = 1_700_000_000_000;

/// The words after the folder.
fn words_of(alloc: Global, rt: &HostRuntime) -> io::Result<Vec<String>> {
    let mut words = Vec::new(alloc);
    for word in env::args(rt)?.skip(2) {
        words.push(word)?;
    }
    Ok(words)
}

fn main(rt: HostRuntime) -> io::Result<ExitCode> {
    let alloc = rt.alloc();
    let words = words_of(alloc, &rt)?;
    let mut source = StdSource::new(rt.stdin());
    let sink = StdSink::new(rt.stdout());
    let clock = MemClock::at(START);
    let mut links = Vec::new(alloc);
    links.push(MemLink::new(alloc, Site::new(alloc), Vec::new(alloc)))?;
    let ran = run(
        &rt,
        alloc,
        &words,
        &mut source,
        MemVolume::new(alloc),
        sink,
        links,
        &clock,
    );
    Ok(ExitCode::from(ran.status.code()))
}
