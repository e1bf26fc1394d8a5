//! Times what the libraries do. `crawl_bench BENCH ARGUMENT ..` runs one bench and prints what it counted; `crawl_bench all` runs
//! each once at small counts. What a bench counts is the same at each run; it prints times where it is asked for them. The scripts
//! under bench/ run it, and time the rest from outside.
#![tactic(auto)]

mod addresses;
mod enqueue;
mod job;
mod journal;
mod links;
mod page;
mod robots;
mod scope;
mod shared;
mod turns;
mod whole_crawl;

use shared::word;
use std::alloc::Global;
use std::env;
use std::rt::{Env, Files};
use std::sync::Wait;
use std::test::Fail;
use std::thread::Threads;
use std::time::CpuClock;

/// What `all` runs: a bench with its arguments on each line.
const SMALL: &str = "\
addresses addresses.txt 2
core 100 16
enqueue 20 10
job 1 national_domain.toml news_site.toml one_host.toml
journal 100 20 5 7
links html <i> <a/href=x> 103 3
links css a{ url(x) 98 3
links script x \"/ab\" 101 3
links page <base/href=/> <a/href=x> 100 3
page 1000 3
robots
scope 100 5 2
turn turn 3 1000
turn mutex 3 1000
";

/// Runs the bench that the first word names, on the other words.
fn run<R: AllocGlobal + Files + CpuClock + Threads + Wait + Sync>(
    rt: &R,
    words: &[String],
) -> Result<String, Fail> {
    let alloc = rt.alloc();
    match word(words, 0) {
        "addresses" => addresses::bench(rt, alloc, words),
        "core" => whole_crawl::bench(rt, alloc, words),
        "enqueue" => enqueue::bench(rt, alloc, words),
        "job" => job::bench(rt, alloc, words),
        "journal" => journal::bench(rt, alloc, words),
        "links" => links::bench(alloc, words),
        "page" => page::bench(alloc, words),
        "robots" => robots::bench(rt, alloc, words),
        "scope" => scope::bench(alloc, words),
        "turn" => turns::bench(rt, alloc, words),
        _ => Err(Fail::new("no such bench")),
    }
}

/// The words of a line.
fn words_of(alloc: Global, line: &str) -> Result<Vec<String>, Fail> {
    let mut words = Vec::new(alloc);
    for word in line.split(' ') {
        words.push(String::from_str(alloc, word)?)?;
    }
    Ok(words)
}

/// Runs each bench at small counts, and prints each line that comes of it behind the words that it was run by.
fn run_all<R: AllocGlobal + Files + CpuClock + Threads + Wait + Sync + Print>(
    rt: &R,
) -> Result<(), Fail> {
    for command in SMALL.lines() {
        let words = words_of(rt.alloc(), command)?;
        let lines = run(rt, words.as_slice())?;
        for line in lines.lines() {
            println!(rt; "{command}: {line}")?;
        }
    }
    Ok(())
}

/// The words after the program's name.
fn arguments(rt: &(impl AllocGlobal + Env)) -> Result<Vec<String>, Fail> {
    let mut words = Vec::new(rt.alloc());
    for word in env::args(rt)?.skip(1) {
        words.push(word)?;
    }
    Ok(words)
}

fn main(rt: HostRuntime) -> Result<(), Fail> {
    let words = arguments(&rt)?;
    if word(words.as_slice(), 0) == "all" {
        return run_all(&rt);
    }
    let lines = run(&rt, words.as_slice())?;
    print!(rt; "{lines}")?;
    Ok(())
}
