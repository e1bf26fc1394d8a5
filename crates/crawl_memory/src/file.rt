// A file in memory.
ghost use Rattle.std.specs.Prelude.{◌<◌, ◌^◌, vec_len};

use crawl_traits::FileId;

/// A file and its bytes.
#[derive(Drop)]
pub struct MemFile {
    pub id: FileId,
    pub bytes: Vec<u8>,
    ghost in_range: { vec_len bytes < 2 ^ 63 },
}
