// A few commands again and again, with each call failing in turn.
use crate::commands::{Came, call, is_init, words_of};
use crate::faults::link_fault;
use crate::history::successes;
use crate::records::records_of;
use crate::reply::{add_line, unusable};
use crate::world::{JOURNAL, WARC, World};
use case_file::{Entry, Reply};
use crawl_memory::MemVolume;
use crawl_traits::LinkFault;
use std::alloc::Global;
use std::mem::replace;
use std::sync::Wait;
use std::test::Fail;

/// An hour, in milliseconds.
const HOUR: u64 = 3_600_000;

/// More calls than a sweep makes.
const CALLS: u64 = 1000;

/// Whose calls fail.
#[derive(Clone, Copy)]
enum Swept {
    Volume,
    Sink,
    Link(LinkFault),
}

/// What is swept.
#[derive(Drop)]
struct Sweep {
    swept: Swept,
    /// The commands, one after another.
    commands: Vec<Vec<String>>,
    /// The command that is called after them.
    again: Vec<String>,
    /// The input of those that are not `init`.
    text: Vec<u8>,
    /// When they begin.
    start: u64,
}

/// How the commands ended: the last that was called, with its status, what it printed and the journal.
#[derive(Drop)]
struct Played {
    last: String,
    left: Vec<u8>,
}

/// Whose calls fail, by the first words.
fn swept_of(entry: &Entry) -> Option<Swept> {
    match entry.text_word(0) {
        "volume" => Some(Swept::Volume),
        "sink" => Some(Swept::Sink),
        "link" => swept_link(entry.text_word(1)),
        _ => None,
    }
}

fn swept_link(name: &str) -> Option<Swept> {
    match link_fault(name) {
        Some(fault) => Some(Swept::Link(fault)),
        None => None,
    }
}

/// A command of one word.
fn one_word(alloc: Global, word: &str) -> Result<Vec<String>, Fail> {
    let mut words = Vec::new(alloc);
    words.push(String::from_str(alloc, word)?)?;
    Ok(words)
}

/// Whether a word parts two commands.
fn parts(word: &String) -> bool {
    matches!(word.as_str(), "/" | "again")
}

/// Commands, cut at each `/` and at `again`; `init / crawl` where there are none.
fn cut(alloc: Global, words: Vec<String>) -> Result<Vec<Vec<String>>, Fail> {
    let mut commands = Vec::new(alloc);
    if words.is_empty() {
        commands.push(one_word(alloc, "init")?)?;
        commands.push(one_word(alloc, "crawl")?)?;
        return Ok(commands);
    }
    let mut open = Vec::new(alloc);
    for word in words {
        if parts(&word) {
            commands.push(replace(&mut open, Vec::new(alloc)))?;
        } else {
            open.push(word)?;
        }
    }
    commands.push(open)?;
    Ok(commands)
}

/// The number of the first word of a command.
fn first_word(entry: &Entry) -> usize {
    let named = if entry.text_word(0) == "link" { 2 } else { 1 };
    if entry.number(named).is_some() {
        named + 1
    } else {
        named
    }
}

/// Whether some word says what is called after the commands.
fn names_again(entry: &Entry) -> bool {
    for word in &entry.words {
        if word.as_slice() == b"again".as_slice() {
            return true;
        }
    }
    false
}

/// What an entry sweeps.
fn sweep_of(alloc: Global, entry: &Entry, start: u64) -> Result<Sweep, Fail> {
    let Some(swept) = swept_of(entry) else {
        return Err(unusable(entry, "nothing of this name is swept"));
    };
    let words = entry.words.get(first_word(entry)..).unwrap_or(&[]);
    let mut commands = cut(alloc, words_of(alloc, entry, words)?)?;
    let mut again = one_word(alloc, "crawl")?;
    if names_again(entry) {
        again = commands.pop().unwrap_or(again);
    }
    Ok(Sweep {
        swept,
        commands,
        again,
        text: entry.text.as_slice().to_vec(alloc)?,
        start,
    })
}

/// The number of a call as a list; none for 0.
fn only(alloc: Global, number: u64) -> Result<Vec<u64>, Fail> {
    let mut calls = Vec::new(alloc);
    if number > 0 {
        calls.push(number)?;
    }
    Ok(calls)
}

/// Makes a new volume ready, and the clock; where it is the volume that is swept, this call of it fails.
fn begin(world: &mut World, sweep: &Sweep, number: u64) -> Result<(), Fail> {
    let alloc = world.alloc;
    world.clock.put(sweep.start);
    world.volume = match sweep.swept {
        Swept::Volume => MemVolume::with_faults(alloc, only(alloc, number)?),
        Swept::Sink | Swept::Link(_) => MemVolume::new(alloc),
    };
    Ok(())
}

/// Makes this call of the sink, or of the link, fail within the next command.
fn arm(world: &mut World, swept: Swept, number: u64) -> Result<(), Fail> {
    match swept {
        Swept::Volume => Ok(()),
        Swept::Sink => {
            world.sink_faults = only(world.alloc, number)?;
            Ok(())
        }
        Swept::Link(fault) => {
            if number > 0 {
                world.link_faults.push((number, fault))?;
            }
            Ok(())
        }
    }
}

/// What is kept of the last command.
fn keep(world: &World, words: &[String], came: &Came) -> Result<Played, Fail> {
    let mut left = came.out.as_slice().to_vec(world.alloc)?;
    left.extend_from_slice(world.volume.bytes(JOURNAL))?;
    let name = match words.first() {
        Some(word) => word.as_str(),
        None => "",
    };
    Ok(Played {
        last: format!(in world.alloc; "{name} {}", came.code)?,
        left,
    })
}

/// Calls a command: the input of `init` is the job's text, that of the others the sweep's.
fn call_one<R: Wait>(
    rt: &R,
    world: &mut World,
    sweep: &Sweep,
    words: &[String],
) -> Result<Came, Fail> {
    if is_init(words) {
        return call(rt, world, words, &[]);
    }
    call(rt, world, words, &sweep.text)
}

/// Calls the commands one after another where this call fails, none for 0, until one does not end with status 0.
fn play<R: Wait>(rt: &R, world: &mut World, sweep: &Sweep, number: u64) -> Result<Played, Fail> {
    begin(world, sweep, number)?;
    let mut more = sweep.commands.len();
    for words in &sweep.commands {
        more = more.saturating_sub(1);
        if more == 0 {
            arm(world, sweep.swept, number)?;
        }
        let came = call_one(rt, world, sweep, words)?;
        if more == 0 || came.code != 0 {
            return keep(world, words, &came);
        }
    }
    Err(Fail::from("a sweep without a command"))
}

/// How many lines of the journal are a success of each address, and how many records there are where that is another number.
fn harvest(world: &World) -> Result<String, Fail> {
    let alloc = world.alloc;
    let mut text = String::new(alloc);
    let mut all = 0u64;
    for count in successes(alloc, world.journal()?)?.values() {
        all = all.saturating_add(*count);
        text.push_str(format!(in alloc; " {count}")?.as_str())?;
    }
    if all == 0 {
        text.push_str(" none")?;
    }
    let records = records_of(alloc, world.volume.bytes(WARC))?;
    if records.len() as u64 != all || !records.is_whole {
        text.push_str(format!(in alloc; " records {}", records.len())?.as_str())?;
    }
    Ok(text)
}

/// Calls the last command an hour later, and says what came of it all.
fn line_of<R: Wait>(
    rt: &R,
    world: &mut World,
    sweep: &Sweep,
    played: &Played,
) -> Result<String, Fail> {
    world.mend_volume()?;
    let later = world.clock.moment().saturating_add(HOUR);
    world.clock.put(later);
    let came = call_one(rt, world, sweep, &sweep.again)?;
    let harvest = harvest(world)?;
    Ok(format!(in world.alloc; "{}, again {}:{harvest}", played.last, came.code)?)
}

/// Puts a line where it is not there yet.
fn add_new(lines: &mut Vec<String>, line: String) -> Result<(), Fail> {
    for own in lines.iter() {
        if *own == line {
            return Ok(());
        }
    }
    lines.push(line)?;
    Ok(())
}

/// Plays with each call failing in turn, until none does. Tells how many failed.
fn play_all<R: Wait>(
    rt: &R,
    world: &mut World,
    sweep: &Sweep,
    lines: &mut Vec<String>,
) -> Result<u64, Fail> {
    let whole = play(rt, world, sweep, 0)?;
    for number in 1..CALLS {
        let played = play(rt, world, sweep, number)?;
        add_new(lines, line_of(rt, world, sweep, &played)?)?;
        if played.last == whole.last && played.left == whole.left {
            return Ok(number - 1);
        }
    }
    Err(Fail::from("a sweep has no end"))
}

/// The lines of a sweep, and one that says how many calls failed where fewer did than the entry asks for.
fn joined(alloc: Global, entry: &Entry, lines: &[String], failed: u64) -> Result<Vec<u8>, Fail> {
    let mut text = Vec::new(alloc);
    for line in lines {
        add_line(&mut text, line.as_bytes())?;
    }
    let wanted = entry
        .number(first_word(entry).saturating_sub(1))
        .unwrap_or(0);
    if failed < wanted {
        let line = format!(in alloc; "only {failed} calls")?;
        add_line(&mut text, line.as_bytes())?;
    }
    Ok(text)
}

/// Does `sweep`. The scenario's own volume and clock stay as they were.
pub fn sweep_calls<R: Wait>(
    rt: &R,
    alloc: Global,
    world: &mut World,
    entry: &Entry,
) -> Result<Reply, Fail> {
    let sweep = sweep_of(alloc, entry, world.clock.moment())?;
    let own = world.take_volume();
    let mut lines = Vec::new(alloc);
    let failed = play_all(rt, world, &sweep, &mut lines)?;
    world.volume = own;
    world.clock.put(sweep.start);
    Ok(Reply::Said(joined(alloc, entry, &lines, failed)?))
}
