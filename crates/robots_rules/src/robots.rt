// What a robots file says to an agent.
ghost use Rattle.std.specs.Prelude.{◌≡◌, ◌↔◌, IfOk, IsTrue};
ghost use Rattle.robots_spec.specs.Groups.{agent_rules};
ghost use Rattle.robots_spec.specs.Verdict.{Allows, RulesAllow};
ghost use Rattle.robots_rules.specs.Reading.{read_by, robots_of};
ghost use Rattle.robots_rules.specs.Ranks.{Outranks};

use crate::collector::Collector;
use crate::line::{from, line_len, line_of, up_to, without_mark};
use crate::matching::matches;
use crawl_kinds::{Listed, NoMemory};
use robots_spec::Rule;
use std::alloc::Global;
use std::marker::Model;

/// What a robots file says to one agent: rules, and a delay. Contracts see both.
#[derive(Drop)]
pub struct Robots {
    rules: Listed<Rule>,
    delay: Option<u32>,
}

impl Model for Robots {
    ghost use Rattle.robots_spec.specs.Groups.{AgentRules};

    ghost Value = { AgentRules };

    ghost view = { λ a. record { rules = a.rules; delay = a.delay } };
}

/// What the lines say to the agent of this name, for the groups that name it.
fn collected(alloc: Global, text: &[u8], agent: &[u8]) -> Result<Collector, NoMemory>
    ensures { IfOk result (λ c. c ≡ read_by agent.now text.now) }
{
    let mut collector = Collector::new(alloc);
    let mut rest = without_mark(text);
    while !rest.is_empty() {
        let len = line_len(rest);
        collector.take(alloc, agent, &line_of(up_to(rest, len)))?;
        rest = from(from(rest, len), 1);
    }
    Ok(collector)
}

impl Robots {
    /// What a robots file says to an agent (RFC 9309 §2.2).
    ///
    /// `text` is the file, of which a caller passes on no more bytes than it is ready to read; any bytes are read. `agent` is
    /// the product token of the agent, which is compared without case. The only error is want of memory.
    pub fn read(alloc: Global, text: &[u8], agent: &str) -> Result<Robots, NoMemory>
        ensures { IfOk result (λ robots. robots ≡ agent_rules text.now agent.now) }
    {
        let named = collected(alloc, text, agent.as_bytes())?;
        if named.found {
            return Ok(Robots::of(named));
        }
        Ok(Robots::of(collected(alloc, text, b"*")?))
    }

    fn of(collector: Collector) -> Robots
        ensures { result ≡ robots_of collector }
    {
        let delay = collector.settled();
        Robots {
            rules: collector.rules,
            delay,
        }
    }

    /// Whether the agent may ask for a path (RFC 9309 §2.2.2), as `robots_path` gives it. It takes no memory.
    pub fn allows(&self, path: &[u8]) -> bool
        ensures { IsTrue result ↔ Allows self.now.rules path.now }
    {
        if path == b"/robots.txt".as_slice() {
            return true;
        }
        verdict(self.rules.as_slice(), path)
    }

    /// The seconds that the agent is asked to wait between two fetches: at most 999,999,999. It takes no memory.
    pub fn crawl_delay(&self) -> Option<u32>
        ensures { result ≡ self.now.delay }
    {
        self.delay
    }
}

/// Whether a rule that matches would decide in place of those before it.
fn outranks(rule: &Rule, longest: usize) -> bool
    ensures { IsTrue result ↔ Outranks rule.now longest }
{
    let len = rule.pattern.as_slice().len();
    longest < len || (longest == len && rule.allows)
}

/// What the rules say of a path: the longest pattern that matches decides, and at equal length a rule that allows.
fn verdict(rules: &[Rule], path: &[u8]) -> bool
    ensures { IsTrue result ↔ RulesAllow rules.now path.now }
{
    let mut longest: usize = 0;
    let mut allowed = true;
    for rule in rules {
        if outranks(rule, longest) && matches(rule.pattern.as_slice(), path) {
            longest = rule.pattern.as_slice().len();
            allowed = rule.allows;
        }
    }
    allowed
}
