// Why a call of the core made nothing.
ghost use Rattle.std.specs.Prelude.{◌≡◌};

use crawl_kinds::NoMemory;
use std::alloc::{AllocError, AllocFailed};

/// Why a call of the core made no event.
#[derive(Clone, Copy, Debug, PartialEq, Eq)]
pub enum FrontierStop {
    /// So many keys are known and so many would be added, which is more than the job allows.
    Full { known: u64, adds: u64 },
    NoMemory,
}

impl From<NoMemory> for FrontierStop {
    ghost use Rattle.std.specs.Prelude.{◌≡◌};
    ghost use Rattle.frontier_core.specs.declared.stop.FrontierStop.TheVariants as stop;

    ghost from_gives = { λ _ own. own ≡ stop.NoMemory };

    fn from(_: NoMemory) -> Self {
        FrontierStop::NoMemory
    }
}

impl<T: Drop> From<AllocFailed<T>> for FrontierStop {
    ghost use Rattle.std.specs.Prelude.{◌≡◌};
    ghost use Rattle.frontier_core.specs.declared.stop.FrontierStop.TheVariants as stop;

    ghost from_gives = { λ _ own. own ≡ stop.NoMemory };

    fn from(_: AllocFailed<T>) -> Self {
        FrontierStop::NoMemory
    }
}
