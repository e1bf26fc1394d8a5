// A rule with what is compiled for it, and its answers.
ghost use Rattle.std.specs.Prelude.{◌≡◌, ◌||◌, ◌&&◌, IfOk};
ghost use Rattle.scope_spec.specs.Answer.{answer_if, answer_of, begins_with_any};
ghost use Rattle.scope_spec.specs.Decision.{decision, patterns_of, rule_patterns};
ghost use Rattle.scope_rules.specs.Prefixes.{prefixes_of};

use crate::kinds::{has_run, has_scheme, is_transcluded, slashes_in};
use crate::pattern::{Finder, any_found};
use crate::seeds::SeedPrefixes;
use crawl_kinds::{HopPath, NoMemory, Uri};
use prefix_set::PrefixSet;
use scope_spec::{Decision, FreeText, Rule};
use std::alloc::Global;
use std::marker::Model;
use uri_form::{Surt, SurtForm};

/// What is to be decided: an address, its SURT form, and the path on which it was found.
#[derive(Drop)]
pub struct Candidate {
    pub uri: Uri,
    pub surt: Surt,
    pub path: HopPath,
}

/// A rule, with a set of its prefixes. Contracts see the rule.
#[derive(Drop)]
pub(crate) struct ReadyRule {
    rule: Rule,
    prefixes: PrefixSet<SurtForm>,
}

impl Model for ReadyRule {
    ghost use Rattle.scope_spec.specs.declared.rule.Rule.{Rule};
    ghost use Rattle.scope_rules.specs.Prefixes.{CoversAs, prefixes_of};

    ghost Value = { Rule };

    ghost view = { λ a. a.rule };

    ghost invariant = { λ a. CoversAs (prefixes_of a.rule) a.prefixes };
}

/// The prefixes of a rule.
fn prefixes_of(rule: &Rule) -> &[Surt]
    ensures { result.now ≡ prefixes_of rule.now }
{
    match rule {
        Rule::Surts { prefixes, .. } => prefixes.as_slice(),
        _ => &[],
    }
}

/// The patterns of a rule.
pub(crate) fn patterns_of(rule: &Rule) -> &[FreeText]
    ensures { result.now ≡ rule_patterns rule.now }
{
    match rule {
        Rule::Regex { patterns, .. } => patterns.as_slice(),
        _ => &[],
    }
}

/// An answer where a test holds, and else none.
fn answer_if(holds: bool, answer: Decision) -> Option<Decision>
    ensures { result ≡ answer_if holds answer }
{
    if holds { Some(answer) } else { None }
}

impl ReadyRule {
    pub(crate) fn of(alloc: Global, rule: Rule) -> Result<ReadyRule, NoMemory>
        ensures { IfOk result (λ own. own ≡ rule) }
    {
        let prefixes = PrefixSet::of(alloc, prefixes_of(&rule))?;
        Ok(ReadyRule { rule, prefixes })
    }

    /// The patterns of the rule.
    pub(crate) fn patterns(&self) -> &[FreeText]
        ensures { result.now ≡ rule_patterns self.now }
    {
        patterns_of(&self.rule)
    }

    /// Whether a SURT form begins with one of the rule's prefixes or, where the rule says so, with one that seeds make.
    fn covers(&self, with_seeds: bool, seeds: &SeedPrefixes, surt: &Surt) -> bool
        ensures { result ≡ (begins_with_any (prefixes_of self.now) surt.now || (with_seeds && begins_with_any seeds.now surt.now)) }
    {
        self.prefixes.covers(surt.as_bytes()) || (with_seeds && seeds.covers(surt))
    }

    /// The rule's answer, where it gives one, by what searches for its patterns.
    fn answer(
        &self,
        seeds: &SeedPrefixes,
        finders: &mut [Finder<'_>],
        candidate: &Candidate,
    ) -> Option<Decision>
        requires { finders.old ≡ rule_patterns self.now }
        ensures answer { result ≡ answer_of seeds.now candidate.now.uri candidate.now.surt candidate.now.path self.now }
        ensures same { finders.new ≡ finders.old }
    {
        let uri = candidate.uri.as_bytes();
        let path = candidate.path.as_bytes();
        match &self.rule {
            Rule::Accept => Some(Decision::Accept),
            Rule::Reject => Some(Decision::Reject),
            Rule::Surts {
                answer,
                seeds: with_seeds,
                ..
            } => answer_if(self.covers(*with_seeds, seeds, &candidate.surt), *answer),
            Rule::Hops { max } => answer_if((*max as usize) < path.len(), Decision::Reject),
            Rule::Transclusion { max, speculative } => {
                answer_if(is_transcluded(*max, *speculative, path), Decision::Accept)
            }
            Rule::Regex { answer, .. } => {
                answer_if(any_found(finders, candidate.uri.as_str()), *answer)
            }
            Rule::Pathological { max } => answer_if(has_run(*max, uri), Decision::Reject),
            Rule::Segments { max } => {
                answer_if((*max as usize) < slashes_in(uri), Decision::Reject)
            }
            Rule::Schemes { names } => {
                answer_if(!has_scheme(names.as_slice(), uri), Decision::Reject)
            }
        }
    }
}

/// What is decided where no rule answers.
const UNDECIDED: Decision = Decision::Reject;

/// What the rules decide, by what searches for their patterns: the last answer. It is sought from the last rule
/// back.
pub(crate) fn decide_by(
    rules: &[ReadyRule],
    seeds: &SeedPrefixes,
    finders: &mut [Finder<'_>],
    candidate: &Candidate,
) -> Decision
    requires { finders.old ≡ patterns_of rules.now }
    ensures decision { result ≡ decision rules.now seeds.now candidate.now.uri candidate.now.surt candidate.now.path }
    ensures same { finders.new ≡ finders.old }
{
    let mut left = rules;
    let mut end = finders.len();
    'rules: while let Some((rule, earlier)) = left.split_last() {
        let start = end - rule.patterns().len();
        if let Some(decision) = rule.answer(seeds, &mut finders[start..end], candidate) {
            return decision;
        }
        left = earlier;
        end = start;
    }
    UNDECIDED
}
