// What a text refers to.
use crawl_kinds::Listed;

/// A reference: the letter that it adds to a path, and its text as it stands, which may be no address at all.
#[derive(Drop)]
pub struct Ref {
    pub letter: u8,
    pub text: Listed<u8>,
}

/// References, in order.
pub type Refs = Listed<Ref>;
