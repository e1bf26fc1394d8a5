// Asking each question of a case file.
use crate::entry::{CaseFault, Entry};
use crate::read::read_cases;
use std::alloc::Global;
use std::fmt;
use std::io::Read;
use std::test::Fail;

/// What comes of a question.
#[derive(Drop)]
pub enum Reply {
    /// These bytes.
    Said(Vec<u8>),
    /// Nothing: the entry makes something ready for those after it.
    Ready,
    /// The keyword is none of the program's.
    Unknown,
}

/// Answers questions.
pub trait Asker {
    /// What comes of a question.
    ///
    /// # Errors
    ///
    /// Whatever keeps it from being asked; an error that is the answer is told as one.
    fn ask(&mut self, alloc: Global, entry: &Entry) -> Result<Reply, Fail>;
}

/// Bytes on one line: printable ones as they are, others as escapes.
#[derive(Clone, Copy)]
struct Shown<'a>(&'a [u8]);

impl fmt::Display for Shown<'_> {
    fn fmt<W: fmt::Write>(&self, f: &mut fmt::Formatter<W>) -> fmt::Result {
        for byte in self.0 {
            match byte {
                b'\n' => write!(f, "\\n")?,
                b'\r' => write!(f, "\\r")?,
                b'\\' => write!(f, "\\\\")?,
                b' '..=b'~' => write!(f, "{}", char::from(*byte))?,
                _ => write!(f, "\\x{byte:02x}")?,
            }
        }
        Ok(())
    }
}

/// How many cases there are, how many differ, and how many must.
#[derive(Clone, Copy, Default)]
struct Tally {
    cases: usize,
    differ: usize,
    must_differ: usize,
}

/// Compares what came with what was wanted, prints one line where the case fails, and counts it.
fn compare(
    rt: &impl Print,
    entry: &Entry,
    wanted: &[u8],
    came: &[u8],
    tally: &mut Tally,
) -> Result<(), Fail> {
    tally.cases = tally.cases.saturating_add(1);
    if entry.must_differ {
        tally.must_differ = tally.must_differ.saturating_add(1);
    }
    if (wanted == came) == entry.must_differ {
        tally.differ = tally.differ.saturating_add(1);
        println!(rt;
            "line {}: {}: {} {}, came {}",
            entry.line,
            entry.name,
            if entry.must_differ {
                "must not be"
            } else {
                "wanted"
            },
            Shown(wanted),
            Shown(came)
        )?;
    }
    Ok(())
}

/// Asks one question.
fn ask_one<A: Asker>(
    rt: &impl Print,
    alloc: Global,
    asker: &mut A,
    entry: &Entry,
    tally: &mut Tally,
) -> Result<Result<(), CaseFault>, Fail> {
    let line = entry.line;
    match (asker.ask(alloc, entry)?, &entry.wanted) {
        (Reply::Unknown, _) => return Ok(Err(CaseFault::UnknownKeyword { line })),
        (Reply::Ready, None) => (),
        (Reply::Ready, Some(_)) => return Ok(Err(CaseFault::Stray { line })),
        (Reply::Said(_), None) => return Ok(Err(CaseFault::NoAnswer { line })),
        (Reply::Said(came), Some(wanted)) => {
            compare(rt, entry, wanted.as_slice(), came.as_slice(), tally)?
        }
    }
    Ok(Ok(()))
}

/// Asks each question of a file, and counts.
fn ask_each<A: Asker>(
    rt: &impl Print,
    alloc: Global,
    asker: &mut A,
    text: &str,
) -> Result<Result<Tally, CaseFault>, Fail> {
    let entries = match read_cases(alloc, text) {
        Ok(entries) => entries,
        Err(fault) => return Ok(Err(fault)),
    };
    let mut tally = Tally::default();
    for entry in &entries {
        if let Err(fault) = ask_one(rt, alloc, asker, entry, &mut tally)? {
            return Ok(Err(fault));
        }
    }
    if tally.must_differ == 0 {
        return Ok(Err(CaseFault::NoneDiffers));
    }
    Ok(Ok(tally))
}

/// Reads a case file from a reader, asks each of its questions, and prints a line for each answer that is not as it must be and
/// then how many cases there were. Tells whether all were as they must be; a file that cannot be used is named on a last line.
///
/// # Errors
///
/// What the reader, the output or the asker fail by.
pub fn ask_all<R: Print, I: Read + Drop, A: Asker>(
    rt: &R,
    alloc: Global,
    input: I,
    asker: &mut A,
) -> Result<bool, Fail> {
    let text = std::io::read_to_string(alloc, input)?;
    match ask_each(rt, alloc, asker, text.as_str())? {
        Ok(tally) if tally.differ == 0 => {
            println!(rt; "{} cases", tally.cases)?;
            Ok(true)
        }
        Ok(tally) => {
            println!(rt;
                "{} cases, {} not as they must be",
                tally.cases, tally.differ
            )?;
            Ok(false)
        }
        Err(fault) => {
            println!(rt; "{fault}")?;
            Ok(false)
        }
    }
}
