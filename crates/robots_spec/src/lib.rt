//! The words of robots files (RFC 9309, in a stated profile): types, and in `specs/` what they mean.
#![tactic(auto)]

use crawl_kinds::Listed;

/// What the name of a line says (RFC 9309 §2.2, and `crawl-delay`, which is a record of §2.2.4).
#[derive(Clone, Copy, Debug, PartialEq, Eq)]
pub enum Field {
    UserAgent,
    Allow,
    Disallow,
    CrawlDelay,
    Other,
}

/// A rule: whether it allows what its pattern matches. The pattern is normalised.
#[derive(Drop)]
pub struct Rule {
    pub allows: bool,
    pub pattern: Listed<u8>,
}
