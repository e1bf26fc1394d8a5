// What may go wrong outside.
ghost use Rattle.std.specs.Prelude.{◌≡◌};
ghost use Rattle.crawl_traits.specs.declared.fault.StoreFault.TheVariants.{Volume, NoMemory as Starved};

use crate::file::FileId;
use crawl_kinds::NoMemory;
use std::alloc::{AllocError, AllocFailed};

/// A call on something outside has failed, and its count of faults has risen.
#[derive(Clone, Copy, Debug, PartialEq, Eq)]
pub struct Failed;

/// Why a call on what a volume stores failed.
#[derive(Clone, Copy, Debug, PartialEq, Eq)]
pub enum StoreFault {
    /// The volume failed, and its count rose.
    Volume,
    /// The bytes of this file have no reading from this place on.
    Damaged { file: FileId, at: u64 },
    NoMemory,
}

impl From<Failed> for StoreFault {
    ghost from_gives = { λ _ fault. fault ≡ Volume };

    fn from(_: Failed) -> Self {
        StoreFault::Volume
    }
}

impl From<NoMemory> for StoreFault {
    ghost from_gives = { λ _ fault. fault ≡ Starved };

    fn from(_: NoMemory) -> Self {
        StoreFault::NoMemory
    }
}

impl From<AllocError> for StoreFault {
    ghost from_gives = { λ _ fault. fault ≡ Starved };

    fn from(_: AllocError) -> Self {
        StoreFault::NoMemory
    }
}

impl<T: Drop> From<AllocFailed<T>> for StoreFault {
    ghost from_gives = { λ _ fault. fault ≡ Starved };

    fn from(_: AllocFailed<T>) -> Self {
        StoreFault::NoMemory
    }
}
