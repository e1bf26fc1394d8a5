// Where records stand.
use crawl_kinds::Key;

/// The place of a record, from which its id is made: the job's name, the number of the WARC file, and the
/// record's first byte in it.
#[derive(Drop)]
pub struct Naming {
    pub job: Key,
    pub file: u32,
    pub at: u64,
}
