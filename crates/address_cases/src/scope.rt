// What a scope decides.
use crate::answer::reply;
use crate::rules::Rules;
use case_file::{Entry, Reply};
use crawl_kinds::HopPath;
use scope_rules::{Candidate, Decision, Scope, decide, decide_plain};
use std::alloc::Global;
use std::test::Fail;
use uri_form::{parse_uri, surt};

/// The letters of a path: none for `-`, and for `N*LETTERS` the letters so many times over.
fn letters_of(alloc: Global, word: &str) -> Result<String, Fail> {
    if word == "-" {
        return Ok(String::new(alloc));
    }
    let Some((times, letters)) = word.split_once('*') else {
        return Ok(String::from_str(alloc, word)?);
    };
    let mut path = String::new(alloc);
    for _ in 0..times.parse::<u8>()? {
        path.push_str(letters)?;
    }
    Ok(path)
}

/// An address that was found on a path.
fn candidate(alloc: Global, address: &str, path: &str) -> Result<Candidate, Fail> {
    let uri = parse_uri(alloc, address)?;
    let surt = surt(alloc, &uri)?;
    let path = letters_of(alloc, path)?;
    Ok(Candidate {
        uri,
        surt,
        path: HopPath::new(alloc, path.as_str())?,
    })
}

/// The words of the rules, with the case's text behind them where it has one.
fn words_of(alloc: Global, entry: &Entry) -> Result<Vec<Vec<u8>>, Fail> {
    let mut words = Vec::new(alloc);
    for number in 2..entry.words.len() {
        words.push(entry.word(number).to_vec(alloc)?)?;
    }
    if !entry.text.is_empty() {
        words.push(entry.text.as_slice().to_vec(alloc)?)?;
    }
    Ok(words)
}

/// Whether a scope without patterns decides otherwise when it is asked without memory.
fn differs_plain(scope: &Scope, asked: &Candidate, answer: Decision) -> bool {
    !scope.has_patterns() && decide_plain(scope, asked) != answer
}

/// What a scope decides, in each of the ways to ask it, which agree; none where they do not.
fn decided(alloc: Global, scope: &Scope, asked: &Candidate) -> Result<Option<Decision>, Fail> {
    let answer = decide(alloc, scope, asked)?;
    let mut decider = scope.decider(alloc)?;
    let (first, second) = (decider.decide(asked), decider.decide(asked));
    if first != answer || second != answer || differs_plain(scope, asked, answer) {
        return Ok(None);
    }
    Ok(Some(answer))
}

/// The word for a decision.
fn word_of(answer: Option<Decision>) -> &'static str {
    match answer {
        Some(Decision::Accept) => "accept",
        Some(Decision::Reject) => "reject",
        None => "torn",
    }
}

/// `scope ADDRESS PATH RULE ; RULE ..`: what the rules decide on an address that was found on a path, or why they make no
/// scope. A text of the case is one more word of the last rule.
pub fn scope(alloc: Global, entry: &Entry) -> Result<Reply, Fail> {
    let asked = candidate(alloc, entry.text_word(0), entry.text_word(1))?;
    let words = words_of(alloc, entry)?;
    let made = Rules::of(alloc, words.as_slice())?;
    match Scope::build(alloc, made.rules, made.prefixes) {
        Ok(scope) if scope.has_patterns() != made.has_patterns => {
            reply(String::from_str(alloc, "has_patterns is wrong")?)
        }
        Ok(scope) => {
            let answer = word_of(decided(alloc, &scope, &asked)?);
            reply(String::from_str(alloc, answer)?)
        }
        Err(fault) => reply(format!(in alloc; "{fault:?}")?),
    }
}
