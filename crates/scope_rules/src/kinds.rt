// What each kind of rule asks of an address or of a discovery path.
ghost use Rattle.std.specs.Prelude.{◌≡◌, ◌==◌, ◌<◌, bytes_eq, count_by};
ghost use Rattle.std.specs.List.{list_any};
ghost use Rattle.scope_rules.specs.Runs.{is_too_long, run_with};
ghost use Rattle.scope_spec.specs.Answer.{embeds_of, has_run, is_transcluded, speculative_letter};
ghost use Rattle.scope_spec.specs.UriParts.{path_of, scheme_of, segments_of, slash};

use crate::parts::{path_of, scheme_of};
use scope_spec::FreeText;

/// The letters behind the last link of a discovery path.
fn embeds_of(path: &[u8]) -> &[u8]
    ensures { result.now ≡ embeds_of path.now }
{
    let mut start = path.len();
    while start > 0 && path[start - 1] != b'L' {
        start -= 1;
    }
    &path[start..]
}

/// How many letters of a discovery path are speculative embeds.
fn speculative_in(path: &[u8]) -> usize
    ensures { result ≡ count_by (λ letter. letter == speculative_letter) path.now }
{
    path.iter().filter(|letter| **letter == b'X').count()
}

/// Whether 1 to `max` letters follow the last link of a path, at most `speculative` of them speculative embeds.
pub(crate) fn is_transcluded(max: u32, speculative: u32, path: &[u8]) -> bool
    ensures { result ≡ is_transcluded max speculative path.now }
{
    let embeds = embeds_of(path);
    let len = embeds.len();
    1 <= len && len <= max as usize && speculative_in(embeds) <= speculative as usize
}

/// How many neighbouring segments are equal up to this one, where so many are up to the last. Empty ones are none.
fn run_with(run: usize, last: &[u8], segment: &[u8]) -> usize
    requires { run < usize.MAX }
    ensures { result ≡ run_with run last.now segment.now }
{
    if !segment.is_empty() && last == segment {
        run + 1
    } else {
        1
    }
}

/// Whether a run that ends with this segment is too long.
fn is_too_long(max: u32, run: usize, segment: &[u8]) -> bool
    ensures { result ≡ is_too_long max run segment.now }
{
    !segment.is_empty() && run > max as usize
}

/// Whether more than `max` neighbouring segments of an address's path are equal and not empty. Segments lie between
/// slashes (RFC 3986 section 3.3).
pub(crate) fn has_run(max: u32, uri: &[u8]) -> bool
    ensures { result ≡ has_run max (segments_of uri.now) }
{
    let mut last: &[u8] = &[];
    let mut run: usize = 0;
    for segment in path_of(uri).split(|b| *b == b'/') {
        run = run_with(run, last, segment);
        last = segment;
        if is_too_long(max, run, segment) {
            return true;
        }
    }
    false
}

/// How many slashes an address's path has.
pub(crate) fn slashes_in(uri: &[u8]) -> usize
    ensures { result ≡ count_by (λ b. b == slash) (path_of uri.now) }
{
    path_of(uri).iter().filter(|b| **b == b'/').count()
}

/// Whether an address's scheme is one of these.
pub(crate) fn has_scheme(names: &[FreeText], uri: &[u8]) -> bool
    ensures { result ≡ list_any (λ name. bytes_eq name (scheme_of uri.now)) names.now }
{
    let scheme = scheme_of(uri);
    names.iter().any(|name| name.as_bytes() == scheme)
}
