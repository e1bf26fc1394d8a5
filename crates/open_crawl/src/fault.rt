// Why a crawl can't be opened, or takes no seeds.
ghost use Rattle.std.specs.Prelude.{◌≡◌};
ghost use Rattle.open_crawl.specs.declared.fault.LoadFault.TheVariants.{Store};

use crawl_kinds::NoMemory;
use crawl_traits::StoreFault;

/// Why a job can't be read from a volume.
#[derive(Clone, Copy, Debug, PartialEq, Eq)]
pub enum LoadFault {
    /// The job file counts no block.
    NoJob,
    /// The volume failed, the job file is damaged, or memory was refused.
    Store(StoreFault),
}

impl From<StoreFault> for LoadFault {
    ghost from_gives = { λ fault own. own ≡ Store fault };

    fn from(fault: StoreFault) -> Self {
        LoadFault::Store(fault)
    }
}

/// Why seeds were not added to a crawl.
#[derive(Clone, Copy, Debug, PartialEq, Eq)]
pub enum SeedsStop {
    /// So many keys are known and so many would be added, which is more than the job allows.
    Full { known: u64, adds: u64 },
    /// The volume failed, and its count rose.
    Volume,
    NoMemory,
}

impl From<NoMemory> for SeedsStop {
    ghost use Rattle.std.specs.Prelude.{◌≡◌};
    ghost use Rattle.open_crawl.specs.declared.fault.SeedsStop.TheVariants as stop;

    ghost from_gives = { λ _ own. own ≡ stop.NoMemory };

    fn from(_: NoMemory) -> Self {
        SeedsStop::NoMemory
    }
}
