//! Addresses: how they are read and joined, their SURT forms, classes, canonical keys and seed prefixes.
#![tactic(auto)]

mod base;
mod cut;
mod fault;
mod ids;
mod key_form;
mod laws;
mod named;
mod parse;
mod reading;
mod robots;
mod seed;
mod site;
mod surt_form;

pub use base::Base;
pub use fault::UriFault;
pub use key_form::canonical_key;
pub use laws::{
    a_robots_file_is_known_by_its_class, a_surt_form_begins_with_its_authority,
    an_address_reads_as_itself, one_class_has_one_robots_key,
};
pub use named::{Named, named_uri};
pub use parse::{join_uri, parse_uri};
pub use robots::robots_uri;
pub use seed::{seed_prefix, seed_uri};
pub use site::{Site, named_on, site_of};
pub use surt_form::{Surt, SurtForm, class_key, surt};
