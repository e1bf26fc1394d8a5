// Waits between two fetches of one host.
use crate::job::sample_settings;
use case_file::{Entry, Reply};
use host_queue::polite_wait;
use std::alloc::Global;
use std::test::Fail;

/// The number that a word says.
fn number(entry: &Entry, word: usize) -> Result<u64, Fail> {
    Ok(entry.number(word).ok_or("a word is no number")?)
}

/// The delay that a robots file asks for, where a word says one.
fn delay(entry: &Entry, word: usize) -> Result<Option<u32>, Fail> {
    match entry.text_word(word) {
        "-" => Ok(None),
        text => Ok(Some(text.parse::<u32>()?)),
    }
}

/// `wait FACTOR MOST DURATION DELAY`: how long a host is left alone after a fetch, by the settings of the sample job with this
/// `delay_factor` and this `max_delay_ms`.
pub fn wait(alloc: Global, entry: &Entry) -> Result<Reply, Fail> {
    let mut settings = sample_settings(alloc, entry)?;
    settings.delay_factor = number(entry, 0)?;
    settings.max_delay_ms = number(entry, 1)?;
    let wait = polite_wait(&settings, number(entry, 2)?, delay(entry, 3)?);
    Ok(Reply::Said(format!(in alloc; "{wait}")?.into_bytes()))
}
