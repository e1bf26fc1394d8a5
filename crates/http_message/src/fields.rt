// What the fields of a head say.
ghost use Rattle.std.specs.Prelude.{◌≡◌, ◌≤◌, ◌++◌, ◌∷◌, [], ℕ, List, length, map, codes, All, IsTrue, Some, None, if◌then◌else◌};
ghost use Rattle.std.specs.Char.{is_ascii_digit};
ghost use Rattle.std.specs.List.{list_all};
ghost use Rattle.std.specs.Str.Parse.{digits_value};
ghost use Rattle.httparse.specs.Spans.{header_bytes, span_bytes, IsHeaderWithin, IsWithin};
ghost use Rattle.page_spec.specs.Fields.{announced, is_count, is_named, is_page, one_count, values_of};
ghost use Rattle.http_message.specs.Seen.{IsSeen};

use httparse::spans::{HeaderSpan, Span};

/// The values of a name: none, one, or several with the first of them.
#[derive(Clone, Copy, Debug)]
pub(crate) enum Seen {
    Absent,
    One(Span),
    Several(Span),
}

/// What was seen, with one value more.
fn with_value(seen: Seen, value: Span) -> Seen
    ensures { (bytes : List ℕ) (values : List (List ℕ)) → IsSeen bytes values seen → IsWithin (length bytes) value
        → IsSeen bytes (values ++ span_bytes bytes value ∷ []) result }
{
    match seen {
        Seen::Absent => Seen::One(value),
        Seen::One(first) => Seen::Several(first),
        Seen::Several(first) => Seen::Several(first),
    }
}

/// The field at these places has this name, capitals or not.
fn is_named(bytes: &[u8], span: &HeaderSpan, name: &[u8]) -> bool
    requires { IsHeaderWithin (length bytes.now) span.now }
    ensures { result ≡ is_named name.now (header_bytes bytes.now span.now) }
{
    span.name.of(bytes).eq_ignore_ascii_case(name)
}

/// The values of the fields of a name.
pub(crate) fn find_values(bytes: &[u8], spans: &[HeaderSpan], name: &[u8]) -> Seen
    requires { All (IsHeaderWithin (length bytes.now)) spans.now }
    ensures { IsSeen bytes.now (values_of name.now (map (header_bytes bytes.now) spans.now)) result }
{
    let mut seen = Seen::Absent;
    for span in spans {
        if is_named(bytes, span, name) {
            seen = with_value(seen, span.value);
        }
    }
    seen
}

/// Each byte is a decimal digit.
fn all_digits(text: &[u8]) -> bool
    ensures { result ≡ list_all is_ascii_digit text.now }
{
    text.iter().all(|b| b.is_ascii_digit())
}

/// 1 to 18 decimal digits.
pub(crate) fn is_count(text: &[u8]) -> bool
    ensures { result ≡ is_count text.now }
{
    1 <= text.len() && text.len() <= 18 && all_digits(text)
}

/// The number that digits write.
pub(crate) fn number(text: &[u8]) -> usize
    requires { IsTrue (is_count text.now) }
    ensures { result ≡ digits_value 10 text.now }
{
    let mut n = 0;
    for b in text {
        n = n * 10 + (*b - b'0') as usize;
    }
    n
}

/// A status of a response with a body that is read: 200 to 599, but neither 204 nor 304 (RFC 9110 section 6.4.1).
fn is_page(status: u16) -> bool
    ensures { result ≡ is_page status }
{
    200 <= status && status <= 599 && !(status == 204 || status == 304)
}

/// The length that a head's one Content-Length field gives (RFC 9112 section 6.3), in bytes.
fn counted(bytes: &[u8], spans: &[HeaderSpan]) -> Option<usize>
    requires { All (IsHeaderWithin (length bytes.now)) spans.now }
    ensures { result ≡ one_count (values_of (codes "content-length") (map (header_bytes bytes.now) spans.now)) }
{
    match find_values(bytes, spans, b"content-length") {
        Seen::One(span) => {
            let text = span.of(bytes);
            if is_count(text) {
                Some(number(text))
            } else {
                None
            }
        }
        Seen::Absent => None,
        Seen::Several(_) => None,
    }
}

/// How many bytes of body follow a head, where it has the status of a page and no Transfer-Encoding field.
pub(crate) fn announced(status: u16, bytes: &[u8], spans: &[HeaderSpan]) -> Option<usize>
    requires { All (IsHeaderWithin (length bytes.now)) spans.now }
    ensures { result ≡ announced status (map (header_bytes bytes.now) spans.now) }
{
    if !is_page(status) {
        return None;
    }
    match find_values(bytes, spans, b"transfer-encoding") {
        Seen::Absent => counted(bytes, spans),
        Seen::One(_) => None,
        Seen::Several(_) => None,
    }
}
