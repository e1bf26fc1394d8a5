// A text that is read part by part, between marks.
ghost use Rattle.std.specs.Prelude.{◌≡◌, ◌∷◌, ◌++◌, [], ◌==◌, MatchBool, MatchOption, MatchResult, IfSome, position};
ghost use Rattle.journal_read.specs.Reading.{cells, left};

use crate::fault::Misread;
use memchr::memchr;

/// Whether two texts are one.
pub fn is_same(one: &[u8], other: &[u8]) -> bool
    ensures { MatchBool result (one.now ≡ other.now) (one.now ≡ other.now → ⊥) }
{
    one == other
}

/// The place of the first mark.
pub fn find(text: &[u8], mark: u8) -> Option<usize>
    ensures { result ≡ position (λ b. b == mark) text.now }
{
    memchr(mark, text)
}

/// What stands before the first mark, and behind it.
pub fn cut(text: &[u8], mark: u8) -> Option<(&[u8], &[u8])>
    ensures parts { MatchOption result (cells mark text.now ≡ text.now ∷ [])
        (λ cut. cells mark text.now ≡ cut.0.now ∷ cells mark cut.1.now) }
    ensures whole { IfSome result (λ cut. text.now ≡ cut.0.now ++ mark ∷ cut.1.now) }
{
    match find(text, mark) {
        Some(at) => Some((&text[..at], &text[at + 1..])),
        None => None,
    }
}

/// The parts of a text between marks, those that are not read yet.
#[derive(Clone, Copy)]
pub struct Parts<'a> {
    mark: u8,
    rest: &'a [u8],
    more: bool,
}

impl<'a> Parts<'a> {
    /// The parts of a text.
    pub fn of(mark: u8, text: &'a [u8]) -> Parts<'a>
        ensures { left result ≡ cells mark text.now }
    {
        Parts {
            mark,
            rest: text,
            more: true,
        }
    }

    /// The next part, which is then read; or Bad where there is none.
    pub fn next(&mut self) -> Result<&'a [u8], Misread>
        ensures { MatchResult result (λ part. left self.old ≡ part.now ∷ left self.new)
            (λ fault. (left self.old ≡ []) × (fault ≡ Misread.Bad)) }
    {
        if !self.more {
            return Err(Misread::Bad);
        }
        match cut(self.rest, self.mark) {
            Some((part, rest)) => {
                self.rest = rest;
                Ok(part)
            }
            None => {
                self.more = false;
                Ok(self.rest)
            }
        }
    }

    /// Bad where a part is left.
    pub fn end(&self) -> Result<(), Misread>
        ensures { MatchResult result (λ _. left self.now ≡ [])
            (λ fault. (left self.now ≡ [] → ⊥) × (fault ≡ Misread.Bad)) }
    {
        if self.more {
            return Err(Misread::Bad);
        }
        Ok(())
    }
}
