// Rules that are ready to decide.
ghost use Rattle.std.specs.Prelude.{◌≡◌, ℕ, ◌++◌, Err, Some, None, false, length, IfOk, OnOk, position};
ghost use Rattle.std.specs.List.{list_any};
ghost use Rattle.scope_spec.specs.Decision.{decision, first_bad, has_patterns, patterns_of, rule_patterns};
ghost use Rattle.scope_rules.specs.Patterns.{is_bad};

use crate::fault::ScopeFault;
use crate::pattern::{Pattern, compile_each};
use crate::ready::{Candidate, ReadyRule, decide_by, patterns_of};
use crate::seeds::SeedPrefixes;
use crawl_kinds::NoMemory;
use scope_spec::{Decision, Rule};
use std::alloc::Global;
use std::marker::Model;
use uri_form::Surt;

/// Rules that are ready to decide. Contracts see the rules and the prefixes that seeds make.
#[derive(Drop)]
pub struct Scope {
    pub(crate) rules: Vec<ReadyRule>,
    pub(crate) seeds: SeedPrefixes,
    pub(crate) patterns: Vec<Pattern>,
}

impl Model for Scope {
    ghost use Rattle.std.specs.Prelude.{◌≡◌};
    ghost use Rattle.scope_spec.specs.Decision.{ScopeRules, patterns_of};

    ghost Value = { ScopeRules };

    ghost view = { λ a. record { rules = a.rules.items; seeds = a.seeds } };

    ghost invariant = { λ a. a.patterns.items ≡ patterns_of a.rules.items };
}

/// The patterns of all rules, compiled.
fn compile(alloc: Global, rules: &[Rule]) -> Result<Vec<Pattern>, ScopeFault>
    ensures ok { IfOk result (λ own. own.items ≡ patterns_of rules.now) }
    ensures good { IfOk result (λ _. list_any is_bad (patterns_of rules.now) ≡ false) }
    ensures bad { (i : ℕ) → result ≡ Err (ScopeFault.BadPattern i) → first_bad rules.now ≡ Some i }
{
    let mut patterns = Vec::new(alloc);
    for rule in rules {
        compile_each(alloc, patterns_of(rule), &mut patterns)?;
    }
    Ok(patterns)
}

/// Each rule with what is made of its prefixes.
fn ready(alloc: Global, rules: Vec<Rule>) -> Result<Vec<ReadyRule>, NoMemory>
    ensures { IfOk result (λ own. own.items ≡ rules.items) }
{
    let mut made = Vec::new(alloc);
    for rule in rules {
        made.push(ReadyRule::of(alloc, rule)?)?;
    }
    Ok(made)
}

impl Scope {
    /// Makes rules and the prefixes that seeds make ready to decide. It fails with `BadPattern` at the first text among
    /// the patterns of all rules that the grammar of `regex` does not read, or not within 250 levels of nesting. A pattern
    /// that is too big when it is compiled counts as want of memory.
    pub fn build(alloc: Global, rules: Vec<Rule>, seeds: Vec<Surt>) -> Result<Scope, ScopeFault>
        ensures ok { IfOk result (λ scope. scope ≡ record { rules = rules.items; seeds = seeds.items }) }
        ensures good { IfOk result (λ _. first_bad rules.items ≡ None) }
        ensures bad { (i : ℕ) → result ≡ Err (ScopeFault.BadPattern i) → first_bad rules.items ≡ Some i }
    {
        let patterns = compile(alloc, &rules)?;
        Ok(Scope {
            rules: ready(alloc, rules)?,
            seeds: SeedPrefixes::of(alloc, seeds)?,
            patterns,
        })
    }

    /// Whether one of the rules has a pattern.
    pub fn has_patterns(&self) -> bool
        ensures { result ≡ has_patterns self.now.rules }
    {
        !self.patterns.is_empty()
    }
}

/// What a scope without patterns decides on a candidate. It takes no memory.
pub fn decide_plain(scope: &Scope, candidate: &Candidate) -> Decision
    requires { has_patterns scope.now.rules ≡ false }
    ensures { result ≡ decision scope.now.rules scope.now.seeds candidate.now.uri candidate.now.surt candidate.now.path }
{
    decide_by(&scope.rules, &scope.seeds, &mut [], candidate)
}
