// The calls that a volume in memory records.
use crawl_kinds::Listed;
use crawl_traits::FileId;

/// A call that changed a file, or put it on the disk.
#[derive(Drop)]
pub enum Call {
    Write {
        file: FileId,
        at: u64,
        bytes: Listed<u8>,
    },
    Cut {
        file: FileId,
        to: u64,
    },
    Sync {
        file: FileId,
    },
}
