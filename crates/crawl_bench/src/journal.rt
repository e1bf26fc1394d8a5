//! `journal FINISHES ADDS OTHERS HOSTS`: the lines of so many finishes with so many adds each, of which so many are on so many
//! other hosts than the page, are read, and the events spelled again. Counts events and bytes. With a fifth argument it prints the
//! megabytes of text a second of processor time each way, too.
use crate::shared::{count, since};
use crawl_kinds::{Event, Listed, NoMemory};
use journal_lines::event_lines;
use journal_read::read_events;
use std::alloc::{AllocError, Global};
use std::test::Fail;
use std::time::{CpuClock, Duration};

/// What stands on each line of a finish, behind its item.
const END: &str =
    "1700000000000 0 2 200 1700000000000+7 4500 text/html sha1:3I42H3S6NNFQ2MSVX7XZKYAYSCX5QBYJ 0:386:1590 -";

/// The host of the page of this number, one of eight.
fn host_of(number: u64) -> &'static str {
    match number % 8 {
        0 => "a.test",
        1 => "b.test",
        2 => "www.c.test",
        3 => "d.test",
        4 => "e.test",
        5 => "f.test:8080",
        6 => "g.test",
        _ => "h.test",
    }
}

/// How many finishes there are, how many adds each has, how many of these are on other hosts, and how many those are.
#[derive(Clone, Copy)]
struct Counts {
    finishes: u64,
    adds: u64,
    others: u64,
    hosts: u64,
}

/// The line of an item that a page adds.
fn push_add(
    alloc: Global,
    text: &mut String,
    number: u64,
    add: u64,
    counts: Counts,
) -> Result<(), AllocError> {
    let page = host_of(number);
    let line = if add < counts.others {
        let place = number.wrapping_mul(counts.others).wrapping_add(add);
        let host = place.checked_rem(counts.hosts).unwrap_or(0);
        format!(in alloc; "F+ http://h{host}.test/p{number}/{add} LL http://{page}/p{number}\n")?
    } else {
        format!(in alloc; "F+ http://{page}/p{number}/{add} LL http://{page}/p{number}\n")?
    };
    text.push_str(line.as_str())
}

/// The lines of a finish.
fn push_finish(
    alloc: Global,
    text: &mut String,
    number: u64,
    counts: Counts,
) -> Result<(), AllocError> {
    let page = host_of(number);
    let line = format!(in alloc; "Fs http://{page}/p{number} L http://{page}/ {END}\n")?;
    text.push_str(line.as_str())?;
    for add in 0..counts.adds {
        push_add(alloc, text, number, add, counts)?;
    }
    Ok(())
}

/// The lines of finishes.
fn lines(alloc: Global, counts: Counts) -> Result<String, AllocError> {
    let mut text = String::new(alloc);
    for number in 0..counts.finishes {
        push_finish(alloc, &mut text, number, counts)?;
    }
    Ok(text)
}

/// The events that a text says.
fn events_of(alloc: Global, text: &str) -> Result<Listed<Event>, Fail> {
    if text.len() > 4_294_967_295 {
        return Err(Fail::new("too much text"));
    }
    Ok(read_events(alloc, text.as_bytes())?)
}

/// The lines of events, spelled.
fn spelled(alloc: Global, events: &[Event]) -> Result<Vec<u8>, NoMemory> {
    let mut text = Vec::new(alloc);
    for event in events {
        event_lines(event, &mut text)?;
    }
    Ok(text)
}

/// The megabytes a second at which so many bytes took this time.
fn rate(bytes: usize, time: Duration) -> u128 {
    match (bytes as u128).checked_div(time.as_micros()) {
        Some(rate) => rate,
        None => 0,
    }
}

/// How many events and bytes there were, and how long each way took.
#[derive(Clone, Copy)]
struct Sample {
    events: usize,
    bytes: usize,
    read: Duration,
    wrote: Duration,
}

/// Reads the lines of finishes and spells them again.
fn take_sample(rt: &impl CpuClock, alloc: Global, counts: Counts) -> Result<Sample, Fail> {
    let text = lines(alloc, counts)?;
    let start = rt.thread_cpu_time()?;
    let events = events_of(alloc, text.as_str())?;
    let read = since(rt, start)?;
    let start = rt.thread_cpu_time()?;
    let again = spelled(alloc, events.as_slice())?;
    let wrote = since(rt, start)?;
    if again.as_slice() != text.as_bytes() {
        return Err(Fail::new("other lines were spelled"));
    }
    Ok(Sample {
        events: events.as_slice().len(),
        bytes: text.len(),
        read,
        wrote,
    })
}

/// A sample's lines.
fn told(alloc: Global, sample: Sample, timed: bool) -> Result<String, AllocError> {
    let Sample {
        events,
        bytes,
        read,
        wrote,
    } = sample;
    if !timed {
        return format!(in alloc; "{events} events, {bytes} bytes\n");
    }
    format!(in alloc;
        "{events} events, {bytes} bytes\nread at {} MB a second, spelled at {}\n",
        rate(bytes, read),
        rate(bytes, wrote)
    )
}

pub fn bench(rt: &impl CpuClock, alloc: Global, words: &[String]) -> Result<String, Fail> {
    let counts = Counts {
        finishes: count(words, 1)?,
        adds: count(words, 2)?,
        others: count(words, 3)?,
        hosts: count(words, 4)?,
    };
    Ok(told(alloc, take_sample(rt, alloc, counts)?, words.len() > 5)?)
}
