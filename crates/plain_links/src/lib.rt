//! References of style sheets and of scripts.
#![tactic(auto)]

mod css;
mod scripts;

pub use css::css_refs;
pub use scripts::string_refs;
