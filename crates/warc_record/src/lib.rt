//! Writes WARC 1.1 records (ISO 28500), and the digests, the ids and the dates that stand in them.
#![tactic(auto)]

mod base32;
mod date;
mod digest;
mod id;
mod record;
mod response;

pub use date::date_text;
pub use digest::digest_of;
pub use id::record_id;
pub use record::{Field, record_bytes};
pub use record_spec::Naming;
pub use response::response_record;
