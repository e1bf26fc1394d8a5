//! Seed lines, of job texts and of the command that adds seeds: the seeds and prefixes that they give, or the first line
//! that gives none.
#![tactic(auto)]

mod fault;
mod laws;
mod line;
mod list;
mod seed;
mod seeds;

pub use fault::SeedFault;
pub use laws::{a_bad_line_has_one_number, a_text_with_a_bad_line_is_not_read, worked_examples};
pub use list::{SeedList, read_seed_list};
pub use seeds::{count_seeds, read_seeds};
