// Rules of a scope, as cases say them in words.
use crawl_kinds::Listed;
use scope_rules::{Decision, FreeText, Rule};
use std::alloc::Global;
use std::test::Fail;
use uri_form::Surt;

/// Rules, the prefixes that seeds make, and whether a rule has a pattern.
#[derive(Drop)]
pub struct Rules {
    pub rules: Vec<Rule>,
    pub prefixes: Vec<Surt>,
    pub has_patterns: bool,
}

/// A word as text; empty where it is not there, or not UTF-8.
fn text_at(words: &[Vec<u8>], number: usize) -> &str {
    match words.get(number) {
        Some(word) => str::from_utf8(word.as_slice()).unwrap_or(""),
        None => "",
    }
}

/// A word as a number.
fn number_at(words: &[Vec<u8>], number: usize) -> Result<u32, Fail> {
    Ok(text_at(words, number).parse::<u32>()?)
}

/// The words from this one on, as prefixes.
fn prefixes_from(alloc: Global, words: &[Vec<u8>], first: usize) -> Result<Vec<Surt>, Fail> {
    let mut made = Vec::new(alloc);
    for number in first..words.len() {
        made.push(Surt::new(alloc, text_at(words, number))?)?;
    }
    Ok(made)
}

/// The words from this one on, as texts.
fn texts_from(alloc: Global, words: &[Vec<u8>], first: usize) -> Result<Listed<FreeText>, Fail> {
    let mut made = Listed::new(alloc);
    for number in first..words.len() {
        made.push(FreeText::new(alloc, text_at(words, number))?)?;
    }
    Ok(made)
}

/// The answer of a rule, its second word.
fn answer_of(words: &[Vec<u8>]) -> Result<Decision, Fail> {
    match text_at(words, 1) {
        "accept" => Ok(Decision::Accept),
        "reject" => Ok(Decision::Reject),
        _ => Err("a rule without its answer".into()),
    }
}

/// `surts ANSWER PREFIX ..`, and `seeds ANSWER PREFIX ..`, which counts the prefixes that seeds make too.
fn surts(alloc: Global, words: &[Vec<u8>], seeds: bool) -> Result<Rule, Fail> {
    Ok(Rule::Surts {
        answer: answer_of(words)?,
        prefixes: Listed::from(prefixes_from(alloc, words, 2)?),
        seeds,
    })
}

/// `regex ANSWER PATTERN ..`
fn regex(alloc: Global, words: &[Vec<u8>]) -> Result<Rule, Fail> {
    Ok(Rule::Regex {
        answer: answer_of(words)?,
        patterns: texts_from(alloc, words, 2)?,
    })
}

/// `schemes NAME ..`
fn schemes(alloc: Global, words: &[Vec<u8>]) -> Result<Rule, Fail> {
    Ok(Rule::Schemes {
        names: texts_from(alloc, words, 1)?,
    })
}

/// `transclusion MAX SPECULATIVE`
fn transclusion(words: &[Vec<u8>]) -> Result<Rule, Fail> {
    Ok(Rule::Transclusion {
        max: number_at(words, 1)?,
        speculative: number_at(words, 2)?,
    })
}

/// `hops MAX`, `pathological MAX` and `segments MAX`.
fn bounded(words: &[Vec<u8>]) -> Result<Rule, Fail> {
    let max = number_at(words, 1)?;
    match text_at(words, 0) {
        "hops" => Ok(Rule::Hops { max }),
        "pathological" => Ok(Rule::Pathological { max }),
        "segments" => Ok(Rule::Segments { max }),
        _ => Err("no such rule".into()),
    }
}

/// The rule that words say, the first of which is its kind.
fn rule_of(alloc: Global, words: &[Vec<u8>]) -> Result<Rule, Fail> {
    match text_at(words, 0) {
        "accept" => Ok(Rule::Accept),
        "reject" => Ok(Rule::Reject),
        "surts" => surts(alloc, words, false),
        "seeds" => surts(alloc, words, true),
        "regex" => regex(alloc, words),
        "schemes" => schemes(alloc, words),
        "transclusion" => transclusion(words),
        _ => bounded(words),
    }
}

impl Rules {
    fn new(alloc: Global) -> Self {
        Rules {
            rules: Vec::new(alloc),
            prefixes: Vec::new(alloc),
            has_patterns: false,
        }
    }

    /// Takes in a rule, or `prefixes PREFIX ..`, the prefixes that seeds make.
    fn take(&mut self, alloc: Global, words: &[Vec<u8>]) -> Result<(), Fail> {
        if text_at(words, 0) == "prefixes" {
            self.prefixes = prefixes_from(alloc, words, 1)?;
            return Ok(());
        }
        if text_at(words, 0) == "regex" && words.len() > 2 {
            self.has_patterns = true;
        }
        self.rules.push(rule_of(alloc, words)?)?;
        Ok(())
    }

    /// What words say, with a word `;` between two rules.
    pub fn of(alloc: Global, words: &[Vec<u8>]) -> Result<Self, Fail> {
        let mut rules = Rules::new(alloc);
        for words in words.split(|word| word.as_slice() == b";".as_slice()) {
            if !words.is_empty() {
                rules.take(alloc, words)?;
            }
        }
        Ok(rules)
    }
}
