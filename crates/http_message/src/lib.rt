//! Messages of HTTP/1 (RFC 9112) for one page: the request for an address, and what a response's bytes are.
#![tactic(auto)]

mod fields;
mod front;
mod head;
mod head_fields;
mod media;
mod peer;
mod reading;
mod request;

pub use front::{Front, Reply, read_front, read_reply};
pub use head::{Head, HeadFault, read_head};
pub use head_fields::{
    FieldValues, HeadField, HeadFields, WholeHead, field_values, media_type, read_fields,
};
pub use media::trim;
pub use peer::{Peer, is_supported, peer_of};
pub use request::request_bytes;
