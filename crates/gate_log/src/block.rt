// The blocks that a log counts.
use crawl_kinds::Listed;

/// Bytes, which contracts see as a list.
pub type Bytes = Listed<u8>;

/// A block of a log: the place of its gate, in bytes from the file's front, and its body.
#[derive(Drop)]
pub struct Block {
    pub gate: u64,
    pub body: Bytes,
}

/// The blocks of a log, in order.
pub type Blocks = Listed<Block>;
