// Why a crawl stopped.
use crawl_kinds::NoMemory;

/// Why a crawl stopped before it was over.
#[derive(Clone, Copy, Debug, PartialEq, Eq)]
pub enum Why {
    /// The volume failed.
    Volume,
    /// The output failed.
    Sink,
    NoMemory,
    /// So many keys are known and so many would be added, which is more than the job allows.
    Full { known: u64, adds: u64 },
}
