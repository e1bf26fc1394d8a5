//! References of pages.
#![tactic(auto)]

mod attributes;
mod elements;
mod entities;
mod page;
mod segments;

pub use page::{HtmlRefs, html_refs};
