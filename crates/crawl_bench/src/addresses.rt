//! `addresses FILE ROUNDS`: each line of a file is read as an address, and its key, its class and its SURT form made, all so many
//! times over. Counts the bytes that came of it.
use crate::shared::{count, word};
use std::alloc::Global;
use std::fs;
use std::rt::Files;
use std::test::Fail;
use uri_form::{UriFault, canonical_key, class_key, parse_uri, surt};

/// The bytes of the key, the class and the SURT form of an address.
fn made(alloc: Global, text: &str) -> Result<usize, UriFault> {
    let uri = parse_uri(alloc, text)?;
    let key = canonical_key(alloc, &uri)?.as_bytes().len();
    let class = class_key(alloc, &uri)?.as_bytes().len();
    let form = surt(alloc, &uri)?.as_bytes().len();
    Ok(key.wrapping_add(class).wrapping_add(form))
}

pub fn bench<R: AllocGlobal + Files>(
    rt: &R,
    alloc: Global,
    words: &[String],
) -> Result<String, Fail> {
    let text = fs::read_to_string(rt, word(words, 1))?;
    let mut total = 0usize;
    for _ in 0..count(words, 2)? {
        for line in text.lines() {
            total = total.wrapping_add(made(alloc, line)?);
        }
    }
    Ok(format!(in alloc; "{total}\n")?)
}
