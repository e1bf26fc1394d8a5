// How answers are worded.
use case_file::Reply;
use std::alloc::Global;
use std::fmt::{Debug, Display};
use std::test::Fail;

/// What came, or the fault.
pub fn shown<T: Display + Drop, E: Debug + Drop>(
    alloc: Global,
    outcome: Result<T, E>,
) -> Result<String, Fail> {
    match outcome {
        Ok(value) => Ok(format!(in alloc; "{value}")?),
        Err(fault) => Ok(format!(in alloc; "{fault:?}")?),
    }
}

/// The answer of these bytes.
pub fn reply(text: String) -> Result<Reply, Fail> {
    Ok(Reply::Said(text.into_bytes()))
}

/// The answer of two ways to ask: one text where they agree, and else both.
pub fn agreed(alloc: Global, one: String, other: String) -> Result<String, Fail> {
    if one == other {
        return Ok(one);
    }
    Ok(format!(in alloc; "{one} but also {other}")?)
}
