// Sets of prefixes and of keys.
use crate::answer::reply;
use case_file::{Entry, Reply};
use crawl_kinds::{Key, KeyForm};
use prefix_set::PrefixSet;
use seen_set::SeenSet;
use std::alloc::Global;
use std::test::Fail;

/// The words from the second on, as keys.
fn keys_of(alloc: Global, entry: &Entry) -> Result<Vec<Key>, Fail> {
    let mut keys = Vec::new(alloc);
    for number in 1..entry.words.len() {
        keys.push(Key::new(alloc, entry.text_word(number))?)?;
    }
    Ok(keys)
}

/// `covers TEXT PREFIX ..`: whether a text begins with one of the prefixes, `yes` or `no`.
pub fn covers(alloc: Global, entry: &Entry) -> Result<Reply, Fail> {
    let keys = keys_of(alloc, entry)?;
    let set: PrefixSet<KeyForm> = PrefixSet::of(alloc, keys.as_slice())?;
    let answer = if set.covers(entry.word(0)) {
        "yes"
    } else {
        "no"
    };
    reply(String::from_str(alloc, answer)?)
}

/// Inserts a key, unless it has a `?` before it, and says what was known of it.
fn answer(alloc: Global, seen: &mut SeenSet, word: &str) -> Result<&'static str, Fail> {
    if let Some(asked) = word.strip_prefix('?') {
        return Ok(if seen.contains(&Key::new(alloc, asked)?) {
            "yes"
        } else {
            "no"
        });
    }
    let known = seen.contains(&Key::new(alloc, word)?);
    let new = seen.insert(Key::new(alloc, word)?)?;
    Ok(match (new, known) {
        (true, false) => "new",
        (false, true) => "known",
        _ => "torn",
    })
}

/// `seen BITS KEY ..`: for each key whether it is `new` or `known` where it is inserted, or for `?KEY` whether it is there,
/// `yes` or `no`; and how many keys there are in the end.
pub fn seen(alloc: Global, entry: &Entry) -> Result<Reply, Fail> {
    let bits = entry.text_word(0).parse::<u32>()?;
    if bits > 64 {
        return Err("more than 64 bits".into());
    }
    let mut seen = SeenSet::new(alloc, bits);
    let mut out = String::new(alloc);
    for number in 1..entry.words.len() {
        out.push_str(answer(alloc, &mut seen, entry.text_word(number))?)?;
        out.push(' ')?;
    }
    write!(out, "{}", seen.len())?;
    reply(out)
}
