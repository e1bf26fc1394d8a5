//! The real pages of a crawl and the archive of its WARC files, as definitions.
#![tactic(auto)]

ghost use Rattle.crawl_facts.specs.Laws.{BehindIsHeld, ThereArePages};

/// For every job there are pages that agree with the definitions of responses and records.
pub fn there_are_pages()
    ensures { ThereArePages }
{}

/// A record that was written behind what a file held is held by every archive of the files.
pub fn what_is_written_is_held()
    ensures { BehindIsHeld }
{}
