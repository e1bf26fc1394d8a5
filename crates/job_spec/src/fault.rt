// Why a text is no job.
use crawl_kinds::{Listed, NoMemory};

/// A list of bytes: a name in a refusal.
pub type Name = Listed<u8>;

/// Why a text is no job: the first that holds, in this order.
#[derive(Drop)]
pub enum JobFault {
    /// It has more than 1,048,576 bytes.
    TooLong,
    /// It is no TOML document (TOML 1.1).
    NotToml,
    /// The least unknown name in byte order, of the top table first and then of each rule in order.
    UnknownName { name: Name },
    /// The first that is needed and does not stand there; `rule` for what a rule needs.
    Missing { name: Name },
    /// The first whose value has another kind or is outside its range; `rule` for what is in a rule.
    OutOfRange { name: Name },
    /// The first bad line of `seeds`, counted from 1.
    BadSeed { line: u32 },
    /// The first pattern that is none, counted from 0 over all rules.
    BadPattern { index: usize },
    NoMemory,
}

impl From<NoMemory> for JobFault {
    ghost use Rattle.std.specs.Prelude.{◌≡◌};
    ghost use Rattle.job_spec.specs.declared.fault.JobFault.{JobFault};

    ghost from_gives = { λ _ fault. fault ≡ JobFault.NoMemory };

    fn from(_: NoMemory) -> Self {
        JobFault::NoMemory
    }
}
