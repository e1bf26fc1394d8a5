// Case files, as they are read.
use case_file::{Entry, Reply, read_cases};
use std::alloc::Global;
use std::test::Fail;

/// How many entries a small case file has, or why it cannot be used.
pub fn cases(alloc: Global, entry: &Entry) -> Result<Reply, Fail> {
    let said = match read_cases(alloc, str::from_utf8(entry.text.as_slice())?) {
        Ok(entries) => format!(in alloc; "{} entries", entries.len())?,
        Err(fault) => format!(in alloc; "{fault}")?,
    };
    Ok(Reply::Said(said.into_bytes()))
}
