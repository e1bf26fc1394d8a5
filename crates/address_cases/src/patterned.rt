// Whether scopes have patterns, asked at once and in threads.
use crate::answer::reply;
use crate::rules::Rules;
use case_file::{Entry, Reply};
use scope_rules::{Asked, Scope, ask_each};
use std::alloc::Global;
use std::test::Fail;
use std::thread::Threads;

/// The scopes that were asked, and a letter for the answer of each.
#[derive(Drop)]
pub struct Scopes {
    scopes: Vec<Asked>,
    told: String,
}

/// The letter for an answer.
fn letter(has_patterns: bool) -> char {
    if has_patterns { '+' } else { '-' }
}

impl Scopes {
    pub fn new(alloc: Global) -> Self {
        Scopes {
            scopes: Vec::new(alloc),
            told: String::new(alloc),
        }
    }

    /// Asks the scope of these rules, and stores it to be asked again.
    fn ask(&mut self, alloc: Global, words: &[Vec<u8>]) -> Result<char, Fail> {
        let made = Rules::of(alloc, words)?;
        let scope = Scope::build(alloc, made.rules, made.prefixes)?;
        let has_patterns = scope.has_patterns();
        self.told.push(letter(has_patterns))?;
        // A thread has to turn this.
        let has_patterns = !has_patterns;
        self.scopes.push(Asked {
            scope,
            has_patterns,
        })?;
        Ok(letter(!has_patterns))
    }

    /// `patterned RULE ; RULE .. / RULE ..`: `+` or `-` for each scope, whether a rule of it has a pattern.
    pub fn patterned(&mut self, alloc: Global, entry: &Entry) -> Result<Reply, Fail> {
        let mut out = String::new(alloc);
        for words in entry.words.split(|word| word.as_slice() == b"/".as_slice()) {
            out.push(self.ask(alloc, words)?)?;
        }
        reply(out)
    }

    /// Whether all scopes answer in two threads as they did before.
    pub fn agree_in_threads<R: Threads + Sync>(
        &mut self,
        rt: &R,
        alloc: Global,
    ) -> Result<bool, Fail> {
        ask_each(rt, 2, &mut self.scopes);
        let mut told = String::new(alloc);
        for asked in &self.scopes {
            told.push(letter(asked.has_patterns))?;
        }
        Ok(told == self.told)
    }
}
