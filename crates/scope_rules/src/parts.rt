// The scheme and the path of an address, by the generic syntax of URIs (RFC 3986 section 3).
ghost use Rattle.std.specs.Prelude.{◌≡◌, ◌==◌, ℕ, drop, take};
ghost use Rattle.std.specs.List.{position_or_len};
ghost use Rattle.scope_spec.specs.UriParts.{colon, ends_authority, ends_path, path_of, scheme_of};

/// What follows the first bytes, or nothing where there are fewer.
fn from(bytes: &[u8], start: usize) -> &[u8]
    ensures { result.now ≡ drop start bytes.now }
{
    if start < bytes.len() {
        &bytes[start..]
    } else {
        &[]
    }
}

/// The place of the first `:`, or the length.
fn colon_at(uri: &[u8]) -> usize
    ensures { result ≡ position_or_len (λ b. b == colon) uri.now }
{
    uri.iter().position(|b| *b == b':').unwrap_or(uri.len())
}

/// Whether a byte ends a path.
fn ends_path(byte: u8) -> bool
    ensures { result ≡ ends_path byte }
{
    byte == b'?' || byte == b'#'
}

/// Whether a byte ends an authority.
fn ends_authority(byte: u8) -> bool
    ensures { result ≡ ends_authority byte }
{
    byte == b'/' || ends_path(byte)
}

/// How many bytes stand before the end of an authority.
fn authority_len(bytes: &[u8]) -> usize
    ensures { result ≡ position_or_len ends_authority bytes.now }
{
    bytes
        .iter()
        .position(|b| ends_authority(*b))
        .unwrap_or(bytes.len())
}

/// How many bytes stand before the end of a path.
fn path_len(bytes: &[u8]) -> usize
    ensures { result ≡ position_or_len ends_path bytes.now }
{
    bytes
        .iter()
        .position(|b| ends_path(*b))
        .unwrap_or(bytes.len())
}

/// What stands before the first `:` (section 3.1).
pub(crate) fn scheme_of(uri: &[u8]) -> &[u8]
    ensures { result.now ≡ scheme_of uri.now }
{
    &uri[..colon_at(uri)]
}

/// What stands behind the authority, up to a query or a fragment (sections 3.2 and 3.3).
pub(crate) fn path_of(uri: &[u8]) -> &[u8]
    ensures { result.now ≡ path_of uri.now }
{
    // The `:` and two slashes stand before the authority.
    let hierarchy = from(from(uri, colon_at(uri)), 3);
    let path = from(hierarchy, authority_len(hierarchy));
    &path[..path_len(path)]
}
