// A question of a case file, and what is wrong with a file.
use std::alloc::{AllocError, AllocFailed};
use std::fmt;

/// A question, and what must come of it.
#[derive(Drop)]
pub struct Entry {
    /// The number of its first line, from 1.
    pub line: usize,
    /// Its first line up to the answer. No two entries between two `scenario` lines have the same.
    pub name: String,
    /// The first word of its name.
    pub keyword: String,
    /// The words after the keyword, each with its escapes read.
    pub words: Vec<Vec<u8>>,
    /// Its lines that begin with `|`, joined by line feeds, with their escapes read.
    pub text: Vec<u8>,
    /// Its answer: what comes after ` = ` on its first line, or its lines that begin with `=`, joined by line feeds.
    pub wanted: Option<Vec<u8>>,
    /// Whether the answer that comes must not be that one.
    pub must_differ: bool,
}

impl Entry {
    /// The word of this number, from 0; empty where there is none.
    pub fn word(&self, number: usize) -> &[u8] {
        match self.words.get(number) {
            Some(word) => word.as_slice(),
            None => b"",
        }
    }

    /// The word of this number as text; empty where there is none, or where it is not UTF-8.
    pub fn text_word(&self, number: usize) -> &str {
        str::from_utf8(self.word(number)).unwrap_or("")
    }

    /// The word of this number as a decimal number; none where there is none, or where it is no such number.
    pub fn number(&self, number: usize) -> Option<u64> {
        self.text_word(number).parse::<u64>().ok()
    }
}

/// Why a file of cases cannot be used. `line` counts from 1.
#[derive(Clone, Copy, Debug, PartialEq, Eq)]
pub enum CaseFault {
    /// The file has no case.
    Empty,
    /// A line `|` or `=` with no case before it, or an `=` where the case has its answer on its first line.
    Stray { line: usize },
    /// An escape that is none of those that there are.
    BadEscape { line: usize },
    /// A case of the same name comes before.
    Repeated { line: usize },
    /// A first word that the program does not know.
    UnknownKeyword { line: usize },
    /// A case that says nothing of what must come of it.
    NoAnswer { line: usize },
    /// The file has no case that must differ.
    NoneDiffers,
    NoMemory,
}

impl fmt::Display for CaseFault {
    fn fmt<W: fmt::Write>(&self, f: &mut fmt::Formatter<W>) -> fmt::Result {
        match self {
            CaseFault::Empty => write!(f, "no cases"),
            CaseFault::Stray { line } => write!(f, "line {line}: it belongs to no case"),
            CaseFault::BadEscape { line } => write!(f, "line {line}: there is no such escape"),
            CaseFault::Repeated { line } => write!(f, "line {line}: a second case of this name"),
            CaseFault::UnknownKeyword { line } => write!(f, "line {line}: unknown keyword"),
            CaseFault::NoAnswer { line } => write!(f, "line {line}: a case without an answer"),
            CaseFault::NoneDiffers => write!(f, "no case must differ"),
            CaseFault::NoMemory => write!(f, "no memory"),
        }
    }
}

impl From<AllocError> for CaseFault {
    fn from(_: AllocError) -> Self {
        CaseFault::NoMemory
    }
}

impl<T: Drop> From<AllocFailed<T>> for CaseFault {
    fn from(_: AllocFailed<T>) -> Self {
        CaseFault::NoMemory
    }
}
