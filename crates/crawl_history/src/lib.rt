//! Definitions of the history of a crawl: definitions alone, over any facts of addresses, scopes, robots files and
//! pages. They stand in `specs/`.
#![tactic(auto)]
