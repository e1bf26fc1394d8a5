//! Items: key, class and rank follow from an address and the path on which it was found.
#![tactic(auto)]

mod item;
mod path;
mod text;

pub use item::{item_of, seed_item};
pub use path::{redirect_path, robots_path, with_letter};
