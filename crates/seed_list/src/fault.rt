// Why lines are no seeds.
use crawl_kinds::{NoMemory, TextFault};
use uri_form::UriFault;

/// Why lines are no seeds: the first that holds, in this order.
#[derive(Clone, Copy, Debug, PartialEq, Eq)]
pub enum SeedFault {
    /// The text has more than 1,048,576 bytes.
    TooLong,
    /// The line of this number, counted from 1, is refused, or it is seed number 200,001.
    BadSeed { line: u32 },
    NoMemory,
}

/// Why a line is not taken.
#[derive(Clone, Copy, Debug, PartialEq, Eq)]
pub(crate) enum LineFault {
    Refused,
    NoMemory,
}

impl LineFault {
    ghost use Rattle.std.specs.Prelude.{◌≡◌, ◌<◌};
    ghost use Rattle.seed_list.specs.Reading.{fault_behind};

    /// The fault of a text, where this is the fault of a line behind so many others.
    pub(crate) fn behind(self, count: usize) -> SeedFault
        requires { count < 4294967295 }
        ensures { result ≡ fault_behind count self }
    {
        match self {
            LineFault::Refused => SeedFault::BadSeed {
                line: count as u32 + 1,
            },
            LineFault::NoMemory => SeedFault::NoMemory,
        }
    }
}

impl From<NoMemory> for LineFault {
    ghost use Rattle.std.specs.Prelude.{◌≡◌};
    ghost use Rattle.seed_list.specs.declared.fault.LineFault.{LineFault};

    ghost from_gives = { λ _ fault. fault ≡ LineFault.NoMemory };

    fn from(_: NoMemory) -> Self {
        LineFault::NoMemory
    }
}

impl From<UriFault> for LineFault {
    ghost use Rattle.std.specs.Prelude.{◌≡◌};
    ghost use Rattle.seed_list.specs.Reading.{fault_of_uri};

    ghost from_gives = { λ uri fault. fault ≡ fault_of_uri uri };

    fn from(uri: UriFault) -> Self {
        match uri {
            UriFault::NoMemory => LineFault::NoMemory,
            _ => LineFault::Refused,
        }
    }
}

impl From<TextFault> for LineFault {
    ghost use Rattle.std.specs.Prelude.{◌≡◌};
    ghost use Rattle.seed_list.specs.Reading.{fault_of_text};

    ghost from_gives = { λ text fault. fault ≡ fault_of_text text };

    fn from(text: TextFault) -> Self {
        match text {
            TextFault::NoMemory => LineFault::NoMemory,
            _ => LineFault::Refused,
        }
    }
}
