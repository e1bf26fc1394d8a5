// The lines of a robots file (RFC 9309 §2.2).
ghost use Rattle.std.specs.Prelude.{◌≡◌, ◌==◌, take_while, take, drop, min};
ghost use Rattle.std.specs.List.{prefix_len, position_or_len};
ghost use Rattle.std.specs.Char.{is_ascii_digit};
ghost use Rattle.robots_spec.specs.Lines.{is_line_end, is_blank, end_trimmed, trimmed, same_name, field_named, setting_of, line_of, is_token_octet, agent_named, seconds_of, without_mark, decimal_number, most_seconds};

use robots_spec::Field;

/// The most seconds of a delay.
const MOST_SECONDS: u64 = 999_999_999;

/// A line: the field that it sets, and to what.
#[derive(Clone, Copy)]
pub struct Line<'a> {
    pub field: Field,
    pub value: &'a [u8],
}

/// What follows the first bytes, or nothing where there are fewer.
pub fn from(bytes: &[u8], start: usize) -> &[u8]
    ensures { result.now ≡ drop start bytes.now }
{
    if start < bytes.len() {
        &bytes[start..]
    } else {
        &[]
    }
}

/// The first bytes, or all where there are fewer.
pub fn up_to(bytes: &[u8], end: usize) -> &[u8]
    ensures { result.now ≡ take end bytes.now }
{
    if end < bytes.len() {
        &bytes[..end]
    } else {
        bytes
    }
}

/// The place of the first such byte, or the length.
pub fn first_of(bytes: &[u8], byte: u8) -> usize
    ensures { result ≡ position_or_len (λ b. b == byte) bytes.now }
{
    bytes.iter().position(|b| *b == byte).unwrap_or(bytes.len())
}

/// Whether a byte ends a line.
fn is_line_end(byte: u8) -> bool
    ensures { result ≡ is_line_end byte }
{
    byte == b'\n' || byte == b'\r'
}

/// How many bytes stand before the next line end.
pub fn line_len(bytes: &[u8]) -> usize
    ensures { result ≡ position_or_len is_line_end bytes.now }
{
    bytes
        .iter()
        .position(|b| is_line_end(*b))
        .unwrap_or(bytes.len())
}

/// The text without a byte order mark at its front.
pub fn without_mark(text: &[u8]) -> &[u8]
    ensures { result.now ≡ without_mark text.now }
{
    if text.starts_with(&[0xEF, 0xBB, 0xBF]) {
        &text[3..]
    } else {
        text
    }
}

/// A space or a tab.
fn is_blank(byte: u8) -> bool
    ensures { result ≡ is_blank byte }
{
    byte == b' ' || byte == b'\t'
}

fn end_trimmed(bytes: &[u8]) -> &[u8]
    ensures { result.now ≡ end_trimmed bytes.now }
{
    let mut len = bytes.len();
    while len > 0 && is_blank(bytes[len - 1]) {
        len -= 1;
    }
    &bytes[..len]
}

fn blanks_len(bytes: &[u8]) -> usize
    ensures { result ≡ prefix_len is_blank bytes.now }
{
    bytes
        .iter()
        .position(|b| !is_blank(*b))
        .unwrap_or(bytes.len())
}

fn trimmed(bytes: &[u8]) -> &[u8]
    ensures { result.now ≡ trimmed bytes.now }
{
    let kept = end_trimmed(bytes);
    from(kept, blanks_len(kept))
}

/// Whether two names are one, in whatever case.
pub fn same_name(a: &[u8], b: &[u8]) -> bool
    ensures { result ≡ same_name a.now b.now }
{
    a.eq_ignore_ascii_case(b)
}

fn field_named(name: &[u8]) -> Field
    ensures { result ≡ field_named name.now }
{
    if same_name(name, b"user-agent") {
        Field::UserAgent
    } else if same_name(name, b"allow") {
        Field::Allow
    } else if same_name(name, b"disallow") {
        Field::Disallow
    } else if same_name(name, b"crawl-delay") {
        Field::CrawlDelay
    } else {
        Field::Other
    }
}

/// What stands before a comment, read as a name, a `:` and a value.
fn setting_of(said: &[u8]) -> Line<'_>
    ensures field { result.field ≡ (setting_of said.now).field }
    ensures value { result.value.now ≡ (setting_of said.now).value }
{
    let colon = first_of(said, b':');
    if colon < said.len() {
        Line {
            field: field_named(trimmed(up_to(said, colon))),
            value: trimmed(from(said, colon + 1)),
        }
    } else {
        Line {
            field: Field::Other,
            value: &[],
        }
    }
}

/// What a line says.
pub fn line_of(bytes: &[u8]) -> Line<'_>
    ensures field { result.field ≡ (line_of bytes.now).field }
    ensures value { result.value.now ≡ (line_of bytes.now).value }
{
    setting_of(up_to(bytes, first_of(bytes, b'#')))
}

/// A letter, `_` or `-`.
fn is_token_octet(byte: u8) -> bool
    ensures { result ≡ is_token_octet byte }
{
    byte.is_ascii_alphabetic() || byte == b'_' || byte == b'-'
}

fn token_len(bytes: &[u8]) -> usize
    ensures { result ≡ prefix_len is_token_octet bytes.now }
{
    bytes
        .iter()
        .position(|b| !is_token_octet(*b))
        .unwrap_or(bytes.len())
}

/// The agent that the value of a user-agent line names.
pub fn agent_named(value: &[u8]) -> &[u8]
    ensures { result.now ≡ agent_named value.now }
{
    if value.starts_with(b"*") {
        b"*"
    } else {
        up_to(value, token_len(value))
    }
}

fn digits_len(bytes: &[u8]) -> usize
    ensures { result ≡ prefix_len is_ascii_digit bytes.now }
{
    bytes
        .iter()
        .position(|b| !b.is_ascii_digit())
        .unwrap_or(bytes.len())
}

/// The number that digits write, at most 999,999,999.
fn capped_number(digits: &[u8]) -> u32
    ensures { result ≡ min most_seconds (decimal_number digits.now) }
{
    let mut number: u64 = 0;
    for digit in digits {
        let next = 10 * number + u64::from(digit.saturating_sub(b'0'));
        number = next.min(MOST_SECONDS);
    }
    number as u32
}

/// The seconds of a Crawl-delay.
pub fn seconds_of(value: &[u8]) -> Option<u32>
    ensures { result ≡ seconds_of value.now }
{
    let len = digits_len(value);
    if len == 0 {
        None
    } else {
        Some(capped_number(up_to(value, len)))
    }
}
