// Files by name.
ghost use Rattle.std.specs.Prelude.{◌≡◌, ◌≢◌, ◌+◌, ◌<◌, ◌^◌, [], length, take, OnOk, OnErr};
ghost use Rattle.crawl_traits.specs.Images.{written};
ghost use Rattle.crawl_traits.specs.declared.file.FileId.{FileId};
ghost use Rattle.crawl_memory.specs.Files.{same_file, file_bytes};

use crate::file::MemFile;
use crate::over::write_over;
use crawl_traits::FileId;
use std::alloc::{AllocError, Global};

/// Whether two names are one.
fn same_file(a: FileId, b: FileId) -> bool
    ensures { result ≡ same_file a b }
{
    match (a, b) {
        (FileId::Job, FileId::Job) => true,
        (FileId::Manifest, FileId::Manifest) => true,
        (FileId::Journal(a), FileId::Journal(b)) => a == b,
        (FileId::Checkpoint(a), FileId::Checkpoint(b)) => a == b,
        (FileId::Warc(a), FileId::Warc(b)) => a == b,
        _ => false,
    }
}

/// The bytes of a file.
pub fn bytes_of(files: &[MemFile], id: FileId) -> &[u8]
    ensures bytes { result.now ≡ file_bytes files.now id }
    ensures in_range { length result.now < 2 ^ 63 }
{
    for file in files {
        if same_file(file.id, id) {
            return &file.bytes;
        }
    }
    &[]
}

/// Writes a piece into a file. For want of memory every file stays as it was.
pub fn write_file(
    alloc: Global,
    files: &mut Vec<MemFile>,
    id: FileId,
    at: usize,
    from: &[u8],
) -> Result<(), AllocError>
    requires { at + length from.now < 2 ^ 63 }
    ensures here { OnOk result (file_bytes files.new.items id ≡ written at from.now (file_bytes files.old.items id)) }
    ensures elsewhere { (f : FileId) → f ≢ id → file_bytes files.new.items f ≡ file_bytes files.old.items f }
    ensures err { OnErr result (file_bytes files.new.items id ≡ file_bytes files.old.items id) }
{
    for i in 0..files.len() {
        let file = &mut files[i];
        if same_file(file.id, id) {
            return write_over(&mut file.bytes, at, from);
        }
    }
    let mut bytes = Vec::new(alloc);
    write_over(&mut bytes, at, from)?;
    files.push(MemFile { id, bytes })?;
    Ok(())
}

/// Cuts a file to a length.
pub fn cut_file(files: &mut Vec<MemFile>, id: FileId, to: usize)
    ensures here { file_bytes files.new.items id ≡ take to (file_bytes files.old.items id) }
    ensures elsewhere { (f : FileId) → f ≢ id → file_bytes files.new.items f ≡ file_bytes files.old.items f }
{
    for i in 0..files.len() {
        let file = &mut files[i];
        if same_file(file.id, id) {
            file.bytes.truncate(to);
            return;
        }
    }
}
