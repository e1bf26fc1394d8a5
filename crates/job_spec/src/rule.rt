// The kinds of rules of a job text, and their fields.
/// The kinds of rules.
#[derive(Clone, Copy, Debug, PartialEq, Eq)]
pub enum Kind {
    Accept,
    Reject,
    Surts,
    Hops,
    Transclusion,
    Regex,
    Pathological,
    Segments,
    Schemes,
}

/// The fields that rules have beside their kind.
#[derive(Clone, Copy, Debug, PartialEq, Eq)]
pub enum Field {
    Answer,
    Prefixes,
    Seeds,
    Max,
    Speculative,
    Patterns,
    Names,
}
