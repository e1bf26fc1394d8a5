// Plain texts, taken or refused by their first fault.
use case_file::{Entry, Reply};
use crawl_kinds::{Copied, Text, TextFault, TextForm};
use std::alloc::Global;
use std::test::Fail;

/// A text that is made a second time, as it is printed, and its length.
fn printed<F: TextForm>(alloc: Global, own: Text<F>) -> Result<String, Fail> {
    let again = own.copy()?;
    let len = again.as_bytes().len();
    Ok(format!(in alloc; "{len} <{again}>")?)
}

/// The length of a text of this kind and the text itself, or its first fault.
pub fn made<F: TextForm>(alloc: Global, entry: &Entry) -> Result<Reply, Fail> {
    let said = match Text::<F>::new(alloc, str::from_utf8(entry.text.as_slice())?) {
        Ok(own) => printed(alloc, own)?,
        Err(TextFault::TooLong { len }) => format!(in alloc; "TooLong {len}")?,
        Err(TextFault::BadByte { at }) => format!(in alloc; "BadByte {at}")?,
        Err(TextFault::NoMemory) => return Err(Fail::from("no memory")),
    };
    Ok(Reply::Said(said.into_bytes()))
}
