// The forms of texts: which bytes each kind may hold, and how many.
ghost use Rattle.std.specs.Prelude.{◌≡◌, ℕ, Bool};
ghost use Rattle.crawl_kinds.specs.Text.{is_visible, is_hop};

/// What a kind of text may hold, and how long it may be.
pub trait TextForm {
    /// The bytes that it may hold.
    ghost allowed: { ℕ → Bool };

    /// The most bytes that it may have.
    ghost most: { ℕ };

    /// Whether it may hold a byte.
    fn allows(byte: u8) -> bool
        ensures { result ≡ allowed byte };

    /// The most bytes that it may have.
    fn most() -> usize
        ensures { result ≡ most };
}

/// A visible character of ASCII: no space, no control byte.
fn is_visible(byte: u8) -> bool
    ensures { result ≡ is_visible byte }
{
    b'!' <= byte && byte <= b'~'
}

/// A letter of a discovery path.
fn is_hop(byte: u8) -> bool
    ensures { result ≡ is_hop byte }
{
    byte == b'L' || byte == b'E' || byte == b'R' || byte == b'X' || byte == b'P'
}

/// Addresses: at most 2,083 visible bytes.
#[derive(Debug, Drop)]
pub struct UriForm;

impl TextForm for UriForm {
    ghost allowed = { is_visible };

    ghost most = { 2083 };

    fn allows(byte: u8) -> bool {
        is_visible(byte)
    }

    fn most() -> usize {
        2083
    }
}

/// Keys: at most 2,200 visible bytes.
#[derive(Debug, Drop)]
pub struct KeyForm;

impl TextForm for KeyForm {
    ghost allowed = { is_visible };

    ghost most = { 2200 };

    fn allows(byte: u8) -> bool {
        is_visible(byte)
    }

    fn most() -> usize {
        2200
    }
}

/// Names of host queues: at most 2,200 visible bytes.
#[derive(Debug, Drop)]
pub struct ClassForm;

impl TextForm for ClassForm {
    ghost allowed = { is_visible };

    ghost most = { 2200 };

    fn allows(byte: u8) -> bool {
        is_visible(byte)
    }

    fn most() -> usize {
        2200
    }
}

/// Discovery paths: at most 250 letters.
#[derive(Debug, Drop)]
pub struct PathForm;

impl TextForm for PathForm {
    ghost allowed = { is_hop };

    ghost most = { 250 };

    fn allows(byte: u8) -> bool {
        is_hop(byte)
    }

    fn most() -> usize {
        250
    }
}

/// Media types: at most 100 visible bytes.
#[derive(Debug, Drop)]
pub struct MediaForm;

impl TextForm for MediaForm {
    ghost allowed = { is_visible };

    ghost most = { 100 };

    fn allows(byte: u8) -> bool {
        is_visible(byte)
    }

    fn most() -> usize {
        100
    }
}

/// Digests: at most 37 visible bytes, `sha1:` and 32 letters of base32.
#[derive(Debug, Drop)]
pub struct DigestForm;

impl TextForm for DigestForm {
    ghost allowed = { is_visible };

    ghost most = { 37 };

    fn allows(byte: u8) -> bool {
        is_visible(byte)
    }

    fn most() -> usize {
        37
    }
}
