// Why rules make no scope.
use crawl_kinds::NoMemory;

/// Why rules make no scope.
#[derive(Clone, Copy, Debug, PartialEq, Eq)]
pub enum ScopeFault {
    /// The first text that is no pattern stands here among the patterns of all rules.
    BadPattern { index: usize },
    /// Memory was refused, or a pattern is too big when it is compiled.
    NoMemory,
}

impl From<NoMemory> for ScopeFault {
    ghost use Rattle.std.specs.Prelude.{◌≡◌};
    ghost use Rattle.scope_rules.specs.declared.fault.ScopeFault.TheVariants as fault;

    ghost from_gives = { λ _ own. own ≡ fault.NoMemory };

    fn from(_: NoMemory) -> Self {
        ScopeFault::NoMemory
    }
}
