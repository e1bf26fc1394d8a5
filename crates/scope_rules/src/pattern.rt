// Patterns that are compiled, and what searches for them.
ghost use Rattle.std.specs.Prelude.{◌≡◌, ◌++◌, ◌∷◌, ℕ, [], Err, Some, true, false, IfOk, OnOk, MatchOption, position};
ghost use Rattle.std.specs.List.{list_any};
ghost use Rattle.scope_spec.specs.Pattern.{is_found, is_pattern};
ghost use Rattle.scope_rules.specs.Patterns.{is_bad};

use crate::fault::ScopeFault;
use crawl_kinds::NoMemory;
use regex::{Error, Matcher, Regex};
use scope_spec::FreeText;
use std::alloc::Global;
use std::marker::Model;

/// A pattern that is compiled. Contracts see its text.
#[derive(Drop)]
pub(crate) struct Pattern {
    regex: Regex,
}

impl Model for Pattern {
    ghost use Rattle.std.specs.Prelude.{ℕ, List};
    ghost use Rattle.regex.specs.Strings.{regex_source};
    ghost use Rattle.scope_rules.specs.Patterns.{IsCompiled};

    ghost Value = { List ℕ };

    ghost view = { λ a. regex_source a.regex };

    ghost invariant = { λ a. IsCompiled a.regex };
}

/// Searches for one pattern. Contracts see the pattern's text.
#[derive(Drop)]
pub(crate) struct Finder<'a> {
    matcher: Matcher<'a>,
    pattern: &'a str,
}

impl<'a> Model for Finder<'a> {
    ghost use Rattle.std.specs.Prelude.{ℕ, List};
    ghost use Rattle.regex.specs.Strings.{matcher_pattern};
    ghost use Rattle.scope_rules.specs.Patterns.{Finds};

    ghost Value = { List ℕ };

    ghost view = { λ a. a.pattern.now };

    ghost invariant = { λ a. Finds a.pattern.now (matcher_pattern a.matcher) };
}

impl Pattern {
    /// Compiles a pattern; a text that is none gives none. One that is too big counts as want of memory.
    fn of(alloc: Global, text: &str) -> Result<Option<Pattern>, NoMemory>
        ensures { IfOk result (λ made. MatchOption made (is_pattern text.now ≡ false)
            (λ own. (own ≡ text.now) × (is_pattern text.now ≡ true))) }
    {
        match Regex::new(alloc, text) {
            Ok(regex) => Ok(Some(Pattern { regex })),
            Err(Error::Syntax(_)) => Ok(None),
            Err(Error::CompiledTooBig) => Err(NoMemory),
            Err(Error::OutOfMemory) => Err(NoMemory),
            Err(Error::Internal) => unreachable!(),
        }
    }

    /// What searches for this pattern.
    fn finder(&self, alloc: Global) -> Result<Finder<'_>, NoMemory>
        ensures { IfOk result (λ own. own ≡ self.now) }
    {
        Ok(Finder {
            matcher: self.regex.matcher(alloc)?,
            pattern: self.regex.as_str(),
        })
    }
}

impl Finder<'_> {
    /// Whether the pattern is found in a text.
    fn is_found(&mut self, text: &str) -> bool
        ensures found { result ≡ is_found self.old text.now }
        ensures same { self.new ≡ self.old }
    {
        self.matcher.is_match(text)
    }
}

/// Whether one of the patterns is found in a text.
pub(crate) fn any_found(finders: &mut [Finder<'_>], text: &str) -> bool
    ensures found { result ≡ list_any (λ pattern. is_found pattern text.now) finders.old }
    ensures same { finders.new ≡ finders.old }
{
    for finder in finders.iter_mut() {
        if finder.is_found(text) {
            return true;
        }
    }
    false
}

/// What searches for each of the patterns.
pub(crate) fn finders(alloc: Global, patterns: &[Pattern]) -> Result<Vec<Finder<'_>>, NoMemory>
    ensures { IfOk result (λ own. own.items ≡ patterns.now) }
{
    let mut made = Vec::new(alloc);
    for pattern in patterns {
        made.push(pattern.finder(alloc)?)?;
    }
    Ok(made)
}

/// Compiles each of the texts, in order, and puts it at the end of the patterns. A text that is none is told by its place
/// among all of them.
pub(crate) fn compile_each(
    alloc: Global,
    texts: &[FreeText],
    patterns: &mut Vec<Pattern>,
) -> Result<(), ScopeFault>
    requires { list_any is_bad patterns.old.items ≡ false }
    ensures ok { OnOk result (patterns.new.items ≡ patterns.old.items ++ texts.now) }
    ensures good { OnOk result (list_any is_bad (patterns.old.items ++ texts.now) ≡ false) }
    ensures bad { (i : ℕ) → result ≡ Err (ScopeFault.BadPattern i) → position is_bad (patterns.old.items ++ texts.now) ≡ Some i }
{
    for text in texts {
        let Some(pattern) = Pattern::of(alloc, text.as_str())? else {
            return Err(ScopeFault::BadPattern {
                index: patterns.len(),
            });
        };
        keep(patterns, pattern)?;
    }
    Ok(())
}

/// Puts a pattern at the end.
fn keep(patterns: &mut Vec<Pattern>, pattern: Pattern) -> Result<(), NoMemory>
    ensures { OnOk result (patterns.new.items ≡ patterns.old.items ++ pattern ∷ []) }
{
    patterns.push(pattern)?;
    Ok(())
}
