//! `scope PREFIXES PATTERNS ROUNDS`: the default sequence of rules with so many SURT prefixes that seeds make, and a rule of so
//! many patterns behind it, decides on 1,000 candidates, as on the links of one page, so many times over. Counts how many it
//! accepted and rejected. What is compiled is compiled once; matchers are made once a page.
use crate::shared::count;
use crawl_kinds::{HopPath, Listed};
use scope_rules::{Candidate, Decision, FreeText, Rule, Scope};
use std::alloc::Global;
use std::test::Fail;
use uri_form::{Surt, parse_uri, surt};

/// How many links a page has.
const LINKS: u64 = 1000;

/// How many candidates were accepted, and how many rejected.
#[derive(Clone, Copy, Default)]
struct Tally {
    accepted: u64,
    rejected: u64,
}

impl Tally {
    fn count(&mut self, decision: Decision) {
        match decision {
            Decision::Accept => self.accepted = self.accepted.wrapping_add(1),
            Decision::Reject => self.rejected = self.rejected.wrapping_add(1),
        }
    }
}

/// Puts a text behind others.
fn push(alloc: Global, texts: &mut Listed<FreeText>, text: &str) -> Result<(), Fail> {
    texts.push(FreeText::new(alloc, text)?)?;
    Ok(())
}

/// The rule of the schemes that are crawled.
fn schemes(alloc: Global) -> Result<Rule, Fail> {
    let mut names = Listed::new(alloc);
    push(alloc, &mut names, "http")?;
    push(alloc, &mut names, "https")?;
    Ok(Rule::Schemes { names })
}

/// The default sequence of rules.
fn default_rules(alloc: Global) -> Result<Vec<Rule>, Fail> {
    let mut rules = Vec::new(alloc);
    rules.push(Rule::Reject)?;
    rules.push(Rule::Surts {
        answer: Decision::Accept,
        prefixes: Listed::new(alloc),
        seeds: true,
    })?;
    rules.push(Rule::Hops { max: 20 })?;
    rules.push(Rule::Transclusion {
        max: 2,
        speculative: 1,
    })?;
    rules.push(Rule::Pathological { max: 2 })?;
    rules.push(Rule::Segments { max: 20 })?;
    rules.push(schemes(alloc)?)?;
    Ok(rules)
}

/// A rule that rejects what one of so many patterns is found in.
fn pattern_rule(alloc: Global, count: u64) -> Result<Rule, Fail> {
    let mut patterns = Listed::new(alloc);
    for i in 0..count {
        let text = format!(in alloc; "[?&]session{i}=[0-9a-f]+(&|$)")?;
        push(alloc, &mut patterns, text.as_str())?;
    }
    Ok(Rule::Regex {
        answer: Decision::Reject,
        patterns,
    })
}

/// The prefixes of so many hosts.
fn host_prefixes(alloc: Global, count: u64) -> Result<Vec<Surt>, Fail> {
    let mut prefixes = Vec::new(alloc);
    for i in 0..count {
        let text = format!(in alloc; "http://(test,example-host-{i},")?;
        prefixes.push(Surt::new(alloc, text.as_str())?)?;
    }
    Ok(prefixes)
}

/// A scope with so many prefixes and patterns.
fn scope_of(alloc: Global, prefixes: u64, patterns: u64) -> Result<Scope, Fail> {
    let mut rules = default_rules(alloc)?;
    if patterns > 0 {
        rules.push(pattern_rule(alloc, patterns)?)?;
    }
    Ok(Scope::build(alloc, rules, host_prefixes(alloc, prefixes)?)?)
}

/// The candidate of this number: every other one is of a host that has a prefix.
fn candidate(alloc: Global, i: u64, prefixes: u64) -> Result<Candidate, Fail> {
    let host = i.wrapping_mul(7919) % prefixes.max(1);
    let top = if i % 2 == 0 { "test" } else { "example" };
    let text = format!(in alloc;
        "http://www.example-host-{host}.{top}/a/path/of/segments/page-{i}.html?member={i}&value=1"
    )?;
    let uri = parse_uri(alloc, text.as_str())?;
    Ok(Candidate {
        surt: surt(alloc, &uri)?,
        uri,
        path: HopPath::new(alloc, "LLL")?,
    })
}

/// The links of a page.
fn page(alloc: Global, prefixes: u64) -> Result<Vec<Candidate>, Fail> {
    let mut links = Vec::new(alloc);
    for i in 0..LINKS {
        links.push(candidate(alloc, i, prefixes)?)?;
    }
    Ok(links)
}

/// What a scope decides on links, so many times over.
fn decisions(
    alloc: Global,
    scope: &Scope,
    links: &[Candidate],
    rounds: u64,
) -> Result<Tally, Fail> {
    let mut tally = Tally::default();
    for _ in 0..rounds {
        let mut decider = scope.decider(alloc)?;
        for link in links {
            tally.count(decider.decide(link));
        }
    }
    Ok(tally)
}

pub fn bench(alloc: Global, words: &[String]) -> Result<String, Fail> {
    let prefixes = count(words, 1)?;
    let scope = scope_of(alloc, prefixes, count(words, 2)?)?;
    let links = page(alloc, prefixes)?;
    let tally = decisions(alloc, &scope, links.as_slice(), count(words, 3)?)?;
    let Tally { accepted, rejected } = tally;
    Ok(format!(in alloc; "accepted {accepted} rejected {rejected}\n")?)
}
