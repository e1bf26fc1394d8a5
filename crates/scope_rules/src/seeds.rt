// The prefixes that seeds make.
ghost use Rattle.std.specs.Prelude.{◌≡◌, IfOk};
ghost use Rattle.scope_spec.specs.Answer.{begins_with_any};

use crawl_kinds::NoMemory;
use prefix_set::PrefixSet;
use std::alloc::Global;
use std::marker::Model;
use uri_form::{Surt, SurtForm};

/// The prefixes that seeds make, with a set of them. Contracts see the prefixes.
#[derive(Drop)]
pub(crate) struct SeedPrefixes {
    given: Vec<Surt>,
    set: PrefixSet<SurtForm>,
}

impl Model for SeedPrefixes {
    ghost use Rattle.std.specs.Prelude.{ℕ, List};
    ghost use Rattle.scope_rules.specs.Prefixes.{CoversAs};

    ghost Value = { List (List ℕ) };

    ghost view = { λ a. a.given.items };

    ghost invariant = { λ a. CoversAs a.given.items a.set };
}

impl SeedPrefixes {
    pub(crate) fn of(alloc: Global, given: Vec<Surt>) -> Result<SeedPrefixes, NoMemory>
        ensures { IfOk result (λ own. own ≡ given.items) }
    {
        let set = PrefixSet::of(alloc, &given)?;
        Ok(SeedPrefixes { given, set })
    }

    /// Whether a SURT form begins with one of them.
    pub(crate) fn covers(&self, surt: &Surt) -> bool
        ensures { result ≡ begins_with_any self.now surt.now }
    {
        self.set.covers(surt.as_bytes())
    }
}
