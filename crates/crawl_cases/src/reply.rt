// Answers, as bytes.
use case_file::{Entry, Reply};
use std::alloc::Global;
use std::test::Fail;

/// A line of a scenario that cannot be used.
pub fn unusable(entry: &Entry, why: &str) -> Fail {
    Fail::new(format_args!("line {}: {why}", entry.line))
}

/// An answer of this text.
pub fn said(text: String) -> Result<Reply, Fail> {
    Ok(Reply::Said(text.into_bytes()))
}

/// Puts a line after those that there are.
pub fn add_line(lines: &mut Vec<u8>, line: &[u8]) -> Result<(), Fail> {
    if !lines.is_empty() {
        lines.push(b'\n')?;
    }
    lines.extend_from_slice(line)?;
    Ok(())
}

/// A first line, and then what was printed. A last line without a line feed has the line `unended` after it.
pub fn with_output(alloc: Global, first: &str, out: &[u8]) -> Result<Vec<u8>, Fail> {
    let mut lines = first.as_bytes().to_vec(alloc)?;
    if out.is_empty() {
        return Ok(lines);
    }
    match out.strip_suffix(b"\n") {
        Some(whole) => add_line(&mut lines, whole)?,
        None => {
            add_line(&mut lines, out)?;
            add_line(&mut lines, b"unended")?;
        }
    }
    Ok(lines)
}
