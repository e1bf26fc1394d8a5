// Many decisions with one set of matchers.
ghost use Rattle.std.specs.Prelude.{◌≡◌, IfOk};
ghost use Rattle.scope_spec.specs.Decision.{decision};

use crate::pattern::{Finder, finders};
use crate::ready::{Candidate, decide_by};
use crate::scope::Scope;
use crawl_kinds::NoMemory;
use scope_spec::Decision;
use std::alloc::Global;
use std::marker::Model;

/// Decides on many candidates, as on the links of one page, with one set of matchers. Contracts see what its scope is made
/// of.
#[derive(Drop)]
pub struct Decider<'a> {
    scope: &'a Scope,
    finders: Vec<Finder<'a>>,
}

impl<'a> Model for Decider<'a> {
    ghost use Rattle.std.specs.Prelude.{◌≡◌};
    ghost use Rattle.scope_spec.specs.Decision.{ScopeRules, patterns_of};

    ghost Value = { ScopeRules };

    ghost view = { λ a. a.scope.now };

    ghost invariant = { λ a. a.finders.items ≡ patterns_of a.scope.now.rules };
}

impl Scope {
    /// What decides on many candidates by this scope. Nothing is compiled here. It fails for want of
    /// memory alone.
    pub fn decider(&self, alloc: Global) -> Result<Decider<'_>, NoMemory>
        ensures { IfOk result (λ own. own ≡ self.now) }
    {
        Ok(Decider {
            scope: self,
            finders: finders(alloc, &self.patterns)?,
        })
    }
}

impl Decider<'_> {
    /// Decides on a candidate. It cannot fail: a search whose caches get no memory goes on without them.
    pub fn decide(&mut self, candidate: &Candidate) -> Decision
        ensures decision { result ≡ decision self.old.rules self.old.seeds candidate.now.uri candidate.now.surt candidate.now.path }
        ensures same { self.new ≡ self.old }
    {
        let scope = self.scope;
        decide_by(&scope.rules, &scope.seeds, &mut self.finders, candidate)
    }
}

/// What a scope decides on one candidate. Where there are many, a `Decider` spares the making of matchers for each. It
/// fails for want of memory alone.
pub fn decide(alloc: Global, scope: &Scope, candidate: &Candidate) -> Result<Decision, NoMemory>
    ensures { IfOk result (λ d. d ≡ decision scope.now.rules scope.now.seeds candidate.now.uri candidate.now.surt candidate.now.path) }
{
    let mut decider = scope.decider(alloc)?;
    Ok(decider.decide(candidate))
}
