// What the groups of one agent say, line by line (RFC 9309 §2.1, §2.2.1).
ghost use Rattle.std.specs.Prelude.{◌≡◌, OnOk, IfOk};
ghost use Rattle.robots_spec.specs.Lines.{Line as a_line};
ghost use Rattle.robots_rules.specs.Reading.{begun, named, ruled, delayed, after, settled};

use crate::line::{Line, agent_named, same_name, seconds_of};
use crate::normal::normal;
use crawl_kinds::{Listed, NoMemory};
use robots_spec::{Field, Rule};
use std::alloc::Global;

/// What the lines so far say to one agent.
#[derive(Drop)]
pub struct Collector {
    /// Whether a group names the agent.
    pub found: bool,
    /// The rules of the groups that name it.
    pub rules: Listed<Rule>,
    /// The first delay of the closed groups that name it.
    pub delay: Option<u32>,
    /// Whether the open group names it.
    pub member: bool,
    /// Whether the open group has agent lines alone, so that another joins it.
    pub heading: bool,
    /// The first delay of the open group.
    pub open_delay: Option<u32>,
}

impl Collector {
    /// No line so far.
    pub fn new(alloc: Global) -> Self
        ensures { result ≡ begun }
    {
        Collector {
            found: false,
            rules: Listed::new(alloc),
            delay: None,
            member: false,
            heading: false,
            open_delay: None,
        }
    }

    /// The first delay, with the open group closed.
    pub fn settled(&self) -> Option<u32>
        ensures { result ≡ settled self.now }
    {
        match self.delay {
            Some(delay) => Some(delay),
            None => { if self.member { self.open_delay } else { None } }
        }
    }

    /// Takes an agent line, which begins a group or joins the open one.
    fn name(&mut self, is_it: bool)
        ensures { self.new ≡ named is_it self.old }
    {
        if !self.heading {
            self.delay = self.settled();
            self.member = false;
            self.heading = true;
            self.open_delay = None;
        }
        if is_it {
            self.found = true;
            self.member = true;
        }
    }

    /// Takes a rule line.
    fn rule(&mut self, alloc: Global, allows: bool, value: &[u8]) -> Result<(), NoMemory>
        ensures { OnOk result (self.new ≡ ruled allows value.now self.old) }
    {
        self.heading = false;
        if self.member {
            let pattern = Listed::from(normal(alloc, value)?);
            self.rules.push(Rule { allows, pattern })?;
        }
        Ok(())
    }

    /// Takes the line of a delay.
    fn hold(&mut self, seconds: Option<u32>)
        ensures { self.new ≡ delayed seconds self.old }
    {
        if self.open_delay.is_none() {
            self.open_delay = seconds;
        }
    }

    /// Takes a line, for the agent of this name. After want of memory it is of no more use.
    pub fn take(&mut self, alloc: Global, agent: &[u8], line: &Line<'_>) -> Result<(), NoMemory>
        ensures { OnOk result (self.new ≡ after agent.now self.old (record { field = line.now.field; value = line.now.value.now })) }
    {
        match line.field {
            Field::UserAgent => self.name(same_name(agent, agent_named(line.value))),
            Field::Allow => self.rule(alloc, true, line.value)?,
            Field::Disallow => self.rule(alloc, false, line.value)?,
            Field::CrawlDelay => self.hold(seconds_of(line.value)),
            Field::Other => (),
        }
        Ok(())
    }
}
