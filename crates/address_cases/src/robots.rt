// What robots files say.
use crate::answer::reply;
use case_file::{Entry, Reply};
use crawl_kinds::Uri;
use robots_rules::{Robots, robots_path};
use std::alloc::Global;
use std::test::Fail;

/// The path of an address that has this path and query.
fn path_of(alloc: Global, path: &str) -> Result<Vec<u8>, Fail> {
    let text = format!(in alloc; "http://a:b@c.test:80{path}")?;
    let uri = Uri::new(alloc, text.as_str())?;
    Ok(robots_path(alloc, &uri)?)
}

/// `robots AGENT PATH ..`: `+` or `-` for each path, and then the delay where there is one, by the file that is the text.
pub fn robots(alloc: Global, entry: &Entry) -> Result<Reply, Fail> {
    let robots = Robots::read(alloc, entry.text.as_slice(), entry.text_word(0))?;
    let mut out = String::new(alloc);
    for number in 1..entry.words.len() {
        let path = path_of(alloc, entry.text_word(number))?;
        out.push(if robots.allows(path.as_slice()) {
            '+'
        } else {
            '-'
        })?;
    }
    if let Some(delay) = robots.crawl_delay() {
        write!(out, " {delay}")?;
    }
    reply(out)
}

/// `robots_path ADDRESS`: path and query, in the form in which rules are compared with them.
pub fn path(alloc: Global, entry: &Entry) -> Result<Reply, Fail> {
    let uri = Uri::new(alloc, entry.text_word(0))?;
    Ok(Reply::Said(robots_path(alloc, &uri)?))
}
