// What the benches share: their arguments, texts that are repeated, and times.
use std::alloc::{AllocError, Global};
use std::test::Fail;
use std::time::{CpuClock, Duration};

/// The word of this number, from 0; empty where there is none.
pub fn word(words: &[String], number: usize) -> &str {
    match words.get(number) {
        Some(word) => word.as_str(),
        None => "",
    }
}

/// The word of this number as a decimal number.
pub fn count(words: &[String], number: usize) -> Result<u64, Fail> {
    match word(words, number).parse::<u64>() {
        Ok(value) => Ok(value),
        Err(_) => Err(Fail::new(format_args!("argument {number} must be a number"))),
    }
}

/// A front, then a unit so many times over, then a back.
pub fn repeated(
    alloc: Global,
    front: &str,
    unit: &str,
    times: usize,
    back: &str,
) -> Result<String, AllocError> {
    let mut text = String::from_str(alloc, front)?;
    for _ in 0..times {
        text.push_str(unit)?;
    }
    text.push_str(back)?;
    Ok(text)
}

/// The processor time since a moment.
pub fn since(rt: &impl CpuClock, start: Duration) -> Result<Duration, Fail> {
    Ok(rt.thread_cpu_time()?.saturating_sub(start))
}

/// A line, and below it the milliseconds of processor time, where there is a word of this number.
pub fn with_millis(
    alloc: Global,
    words: &[String],
    number: usize,
    line: String,
    spent: Duration,
) -> Result<String, AllocError> {
    if words.len() <= number {
        return format!(in alloc; "{line}\n");
    }
    format!(in alloc; "{line}\n{} ms\n", spent.as_millis())
}
