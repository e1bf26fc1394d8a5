//! `robots times`: robots files are read, and paths asked for, 20 turns each. Prints the microseconds of processor time of one turn.
//! Without `times` the files are a hundredth as long, and it counts the turns that were allowed.
use crate::shared::{repeated, since};
use robots_rules::Robots;
use std::alloc::Global;
use std::test::Fail;
use std::time::{CpuClock, Duration};

/// How often each thing is done.
const TURNS: u32 = 20;

/// What stands before the path of the one rule of a file, and of one that begins with a star.
const RULE: &str = "User-agent: *\nDisallow: ";

const STAR_RULE: &str = "User-agent: *\nDisallow: *";

/// The lines of the samples.
#[derive(Drop)]
struct Report {
    alloc: Global,
    timed: bool,
    lines: String,
}

/// How often a unit is repeated: so many times where it is timed.
fn times(timed: bool, most: usize) -> usize {
    if timed { most } else { most / 100 }
}

/// One more turn, where it was allowed.
fn counted(allowed: u32, one: bool) -> u32 {
    if one {
        allowed.saturating_add(1)
    } else {
        allowed
    }
}

/// How often a text allows the root, read again and again.
fn reads(alloc: Global, text: &str) -> Result<u32, Fail> {
    let mut allowed = 0;
    for _ in 0..TURNS {
        let robots = Robots::read(alloc, text.as_bytes(), "sampler")?;
        allowed = counted(allowed, robots.allows(b"/"));
    }
    Ok(allowed)
}

/// How often a path is allowed, each time one byte shorter, so that no answer serves twice.
fn asks(robots: &Robots, path: &[u8]) -> u32 {
    let mut allowed = 0;
    for turn in 0..TURNS {
        let end = path.len().saturating_sub(turn as usize);
        allowed = counted(allowed, robots.allows(&path[..end]));
    }
    allowed
}

impl Report {
    /// Adds the line of a sample.
    fn add(&mut self, name: &str, allowed: u32, spent: Duration) -> Result<(), Fail> {
        let line = if self.timed {
            let micros = spent.as_micros() / u128::from(TURNS);
            format!(in self.alloc; "{name}: {micros} microseconds\n")?
        } else {
            format!(in self.alloc; "{name}: {allowed}\n")?
        };
        self.lines.push_str(line.as_str())?;
        Ok(())
    }

    /// The reading of a text.
    fn read(&mut self, rt: &impl CpuClock, name: &str, text: String) -> Result<(), Fail> {
        let start = rt.thread_cpu_time()?;
        let allowed = reads(self.alloc, text.as_str())?;
        self.add(name, allowed, since(rt, start)?)
    }

    /// The answers for a path of 2,000 bytes.
    fn ask(&mut self, rt: &impl CpuClock, name: &str, text: String) -> Result<(), Fail> {
        let path = repeated(self.alloc, "/", "a", 1_999, "")?;
        let robots = Robots::read(self.alloc, text.as_bytes(), "sampler")?;
        let start = rt.thread_cpu_time()?;
        let allowed = asks(&robots, path.as_bytes());
        self.add(name, allowed, since(rt, start)?)
    }
}

/// A line of 32 bytes and so many others.
fn plain_file(alloc: Global, agent: &str, lines: usize) -> Result<String, Fail> {
    let line = "Disallow: /directory/page/12345\n";
    Ok(repeated(alloc, agent, line, lines, "")?)
}

/// Rules for all agents, each made of its number.
fn numbered_rules(alloc: Global, front: &str, back: &str, rules: usize) -> Result<String, Fail> {
    let mut text = String::from_str(alloc, "User-agent: *\n")?;
    for i in 0..rules {
        text.push_str(format!(in alloc; "Disallow: {front}{i}{back}\n")?.as_str())?;
    }
    Ok(text)
}

/// The reading of texts of 524,288 bytes, or nearly.
fn add_reads(rt: &impl CpuClock, alloc: Global, report: &mut Report) -> Result<(), Fail> {
    let lines = times(report.timed, 16_383);
    let named = plain_file(alloc, "User-agent: sampler # a comment\n", lines)?;
    report.read(rt, "read, the agent named", named)?;
    let unnamed = plain_file(alloc, "User-agent: * # a long comment \n", lines)?;
    report.read(rt, "read, all agents named", unnamed)?;
    let lines = times(report.timed, 74_896);
    let short = repeated(alloc, "User-agent: *\n", "Allow:\n", lines, "")?;
    report.read(rt, "read, lines of 7 bytes", short)?;
    let octets = times(report.timed, 87_377);
    let triples = repeated(alloc, RULE, "%41%2f", octets, "")?;
    report.read(rt, "read, one rule of triples", triples)
}

/// The answers for a path of 2,000 bytes.
fn add_answers(rt: &impl CpuClock, alloc: Global, report: &mut Report) -> Result<(), Fail> {
    let thousand = times(report.timed, 1_000);
    let fronts = numbered_rules(alloc, "/dir", "/", thousand)?;
    report.ask(rt, "1,000 rules by their front", fronts)?;
    let ends = numbered_rules(alloc, "/a*", ".html$", thousand)?;
    report.ask(rt, "1,000 rules with a star", ends)?;
    let stars = repeated(alloc, RULE, "*a", times(report.timed, 500), "b$")?;
    report.ask(rt, "500 stars", stars)?;
    let runs = repeated(alloc, STAR_RULE, "a", thousand, "b")?;
    report.ask(rt, "a star and 1,000 octets", runs)
}

pub fn bench(rt: &impl CpuClock, alloc: Global, words: &[String]) -> Result<String, Fail> {
    let mut report = Report {
        alloc,
        timed: words.len() > 1,
        lines: String::new(alloc),
    };
    add_reads(rt, alloc, &mut report)?;
    add_answers(rt, alloc, &mut report)?;
    let Report { lines, .. } = report;
    Ok(lines)
}
