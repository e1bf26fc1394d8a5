// Why lines are not read.
ghost use Rattle.std.specs.Prelude.{◌≡◌};
ghost use Rattle.journal_read.specs.declared.fault.Misread.TheVariants.{NoMemory as NoRoom};

use crawl_kinds::NoMemory;
use std::alloc::AllocError;

/// Why a part of a line is not read: it is not what is meant, or memory was refused.
#[derive(Clone, Copy, Debug, PartialEq, Eq)]
pub enum Misread {
    Bad,
    NoMemory,
}

impl From<NoMemory> for Misread {
    ghost from_gives = { λ _ fault. fault ≡ NoRoom };

    fn from(_: NoMemory) -> Self {
        Misread::NoMemory
    }
}

impl From<AllocError> for Misread {
    ghost from_gives = { λ _ fault. fault ≡ NoRoom };

    fn from(_: AllocError) -> Self {
        Misread::NoMemory
    }
}

/// Why a text is no list of events.
#[derive(Clone, Copy, Debug, PartialEq, Eq)]
pub enum LineFault {
    /// The lines before this one, counted from 1, are those of valid events, and with this one they are not.
    BadLine { line: u32 },
    NoMemory,
}
