// The entries of a case file.
use crate::entry::{CaseFault, Entry};
use crate::escape::{Unread, unescaped};
use std::alloc::Global;
use std::collections::BTreeSet;

/// An entry that is being read, as its lines say it.
#[derive(Drop)]
struct Draft {
    line: usize,
    head: String,
    answer: Option<String>,
    is_short: bool,
    text: Option<String>,
}

/// What a text says at this line.
fn said(alloc: Global, line: usize, text: &str) -> Result<Vec<u8>, CaseFault> {
    match unescaped(alloc, text.as_bytes()) {
        Ok(bytes) => Ok(bytes),
        Err(Unread::BadEscape) => Err(CaseFault::BadEscape { line }),
        Err(Unread::NoMemory) => Err(CaseFault::NoMemory),
    }
}

/// Puts a line behind those that there are.
fn put(alloc: Global, lines: &mut Option<String>, line: &str) -> Result<(), CaseFault> {
    match lines {
        Some(text) => {
            text.push('\n')?;
            text.push_str(line)?;
        }
        None => *lines = Some(String::from_str(alloc, line)?),
    }
    Ok(())
}

/// What stands on a line after its first letter and one space.
fn after_mark(line: &str) -> &str {
    let rest = line.get(1..).unwrap_or("");
    rest.strip_prefix(" ").unwrap_or(rest)
}

/// The draft that a first line begins.
fn begun(alloc: Global, line: usize, text: &str) -> Result<Draft, CaseFault> {
    let (head, answer) = match text.split_once(" = ") {
        Some((head, answer)) => (head, Some(answer)),
        None => match text.strip_suffix(" =") {
            Some(head) => (head, Some("")),
            None => (text, None),
        },
    };
    let mut own = None;
    if let Some(answer) = answer {
        put(alloc, &mut own, answer)?;
    }
    Ok(Draft {
        line,
        head: String::from_str(alloc, head)?,
        answer: own,
        is_short: answer.is_some(),
        text: None,
    })
}

/// What a text says at this line, where there is one.
fn said_if(
    alloc: Global,
    line: usize,
    text: &Option<String>,
) -> Result<Option<Vec<u8>>, CaseFault> {
    match text {
        Some(text) => Ok(Some(said(alloc, line, text.as_str())?)),
        None => Ok(None),
    }
}

/// What an entry asks: its first line without what says that it must differ, and what it shows.
fn question(head: &str) -> &str {
    let rest = head.strip_prefix("must differ ").unwrap_or(head);
    match rest.find(" -- ") {
        Some(end) => rest.get(..end).unwrap_or(rest),
        None => rest,
    }
}

/// The words of a question after its keyword.
fn words_of(alloc: Global, line: usize, question: &str) -> Result<Vec<Vec<u8>>, CaseFault> {
    let mut words = Vec::new(alloc);
    for word in question.split(' ').skip(1) {
        if !word.is_empty() {
            words.push(said(alloc, line, word)?)?;
        }
    }
    Ok(words)
}

/// The entry that a draft's lines say.
fn ended(alloc: Global, draft: Draft) -> Result<Entry, CaseFault> {
    let line = draft.line;
    let asked = question(draft.head.as_str());
    let keyword = String::from_str(alloc, asked.split(' ').next().unwrap_or(""))?;
    let words = words_of(alloc, line, asked)?;
    let wanted = said_if(alloc, line, &draft.answer)?;
    let text = said_if(alloc, line, &draft.text)?.unwrap_or(Vec::new(alloc));
    let must_differ = draft.head.as_str().starts_with("must differ ");
    Ok(Entry {
        line,
        name: draft.head,
        keyword,
        words,
        text,
        wanted,
        must_differ,
    })
}

/// The entries that are read, and the one that is being read.
#[derive(Drop)]
struct Entries {
    alloc: Global,
    done: Vec<Entry>,
    names: BTreeSet<String>,
    open: Option<Draft>,
}

impl Entries {
    /// Ends the entry that is being read.
    fn close(&mut self) -> Result<(), CaseFault> {
        let Some(draft) = self.open.take() else {
            return Ok(());
        };
        let entry = ended(self.alloc, draft)?;
        if entry.keyword.as_str() == "scenario" {
            self.names_of_scenarios(&entry)?;
        } else if !self.names.insert(entry.name.clone()?)? {
            return Err(CaseFault::Repeated { line: entry.line });
        }
        self.done.push(entry)?;
        Ok(())
    }

    /// The names within a scenario are its own.
    fn names_of_scenarios(&mut self, entry: &Entry) -> Result<(), CaseFault> {
        let mut names = BTreeSet::new(self.alloc);
        for other in &self.done {
            if other.keyword.as_str() == "scenario" && other.name == entry.name {
                return Err(CaseFault::Repeated { line: entry.line });
            }
        }
        names.insert(entry.name.clone()?)?;
        self.names = names;
        Ok(())
    }

    /// Reads the line of this number.
    fn line(&mut self, number: usize, line: &str) -> Result<(), CaseFault> {
        match line.as_bytes().first() {
            None | Some(b'#') => Ok(()),
            Some(b'|') => match &mut self.open {
                Some(draft) => put(self.alloc, &mut draft.text, after_mark(line)),
                None => Err(CaseFault::Stray { line: number }),
            },
            Some(b'=') => match &mut self.open {
                Some(draft) if !draft.is_short => {
                    put(self.alloc, &mut draft.answer, after_mark(line))
                }
                _ => Err(CaseFault::Stray { line: number }),
            },
            Some(_) => {
                self.close()?;
                self.open = Some(begun(self.alloc, number, line)?);
                Ok(())
            }
        }
    }
}

/// The entries of a case file, in order.
///
/// A line that begins with `#`, and an empty one, say nothing. A line that begins with `|` or `=` belongs to the entry before it:
/// it is a line of its text, or of its answer. Any other line begins an entry: `KEYWORD WORD ..`, with ` -- ` and a few words
/// that say what it shows where that helps, and ` = ANSWER` where the answer is short. `must differ` before the keyword says that
/// the answer must be another one.
///
/// # Errors
///
/// `Empty`, `Stray`, `BadEscape` or `Repeated` for the first entry that is wrong, and `NoMemory`.
pub fn read_cases(alloc: Global, text: &str) -> Result<Vec<Entry>, CaseFault> {
    let mut entries = Entries {
        alloc,
        done: Vec::new(alloc),
        names: BTreeSet::new(alloc),
        open: None,
    };
    let mut number = 0usize;
    for line in text.split('\n') {
        number = number.saturating_add(1);
        entries.line(number, line)?;
    }
    entries.close()?;
    if entries.done.is_empty() {
        return Err(CaseFault::Empty);
    }
    let Entries { done, .. } = entries;
    Ok(done)
}
