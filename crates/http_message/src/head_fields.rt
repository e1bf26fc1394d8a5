// The fields of a head, kept.
ghost use Rattle.std.specs.Prelude.{◌≡◌, ◌≤◌, ℕ, List, length, map, codes, All, IfOk, IfSome, IsSomeAnd, None};
ghost use Rattle.httparse.specs.Grammar.{ResponseHead};
ghost use Rattle.httparse.specs.Spans.{header_bytes, IsHeaderWithin};
ghost use Rattle.page_spec.specs.Fields.{is_named, media_of, values_of};
ghost use Rattle.page_spec.specs.Response.{IsHead};
ghost use Rattle.http_message.specs.Kept.{IsKept, IsKeptAt, pair_of, pairs_of};
ghost use Rattle.http_message.specs.Reading.{NoHead};

use crate::head::{MOST_FIELDS, MOST_HEAD};
use crate::media::media_in;
use crate::reading::keep;
use crawl_kinds::{Listed, Media, NoMemory};
use httparse::Status;
use httparse::spans::{EMPTY_HEADER_SPAN, HeaderSpan, parse_response};
use std::alloc::Global;

/// A field of a head: its name as it stands, and its value without spaces and tabs round it (RFC 9110 section 5).
#[derive(Drop)]
pub struct HeadField {
    pub name: Listed<u8>,
    pub value: Listed<u8>,
}

/// The fields of a head, in order.
pub type HeadFields = Listed<HeadField>;

/// Values of fields, in order.
pub type FieldValues = Listed<Listed<u8>>;

/// A head of a response with all its fields.
#[derive(Drop)]
pub struct WholeHead {
    /// Its status (RFC 9110 section 15).
    pub status: u16,
    /// Its length in bytes, with the empty line.
    pub len: usize,
    pub fields: HeadFields,
}

impl HeadField {
    /// Whether the field has this name, capitals or not.
    pub fn is_named(&self, name: &[u8]) -> bool
        ensures { result ≡ is_named name.now (pair_of self.now) }
    {
        self.name.as_slice().eq_ignore_ascii_case(name)
    }
}

/// The field at these places.
fn keep_field(alloc: Global, bytes: &[u8], span: &HeaderSpan) -> Result<HeadField, NoMemory>
    requires { IsHeaderWithin (length bytes.now) span.now }
    ensures { IfOk result (λ own. pair_of own ≡ header_bytes bytes.now span.now) }
{
    let name = Listed::from(span.name.of(bytes).to_vec(alloc)?);
    let value = Listed::from(span.value.of(bytes).to_vec(alloc)?);
    Ok(HeadField { name, value })
}

/// The fields at these places.
fn keep_fields(alloc: Global, bytes: &[u8], spans: &[HeaderSpan]) -> Result<HeadFields, NoMemory>
    requires { All (IsHeaderWithin (length bytes.now)) spans.now }
    ensures { IfOk result (λ own. pairs_of own ≡ map (header_bytes bytes.now) spans.now) }
{
    let mut fields = Listed::new(alloc);
    for span in spans {
        fields.push(keep_field(alloc, bytes, span)?)?;
    }
    Ok(fields)
}

/// Reads the head of a response (RFC 9112 sections 2 to 5) at the front of bytes, with all its fields, and `None` where none
/// stands there. A head has at most 256 fields and 65,536 bytes. It fails for want of memory alone.
pub fn read_fields(alloc: Global, bytes: &[u8]) -> Result<Option<WholeHead>, NoMemory>
    ensures head { IfOk result (λ read. IfSome read (λ head. (h : ResponseHead) × IsKeptAt bytes.now head h)) }
    ensures none { IfOk result (λ read. read ≡ None → NoHead bytes.now) }
    ensures found { (h : ResponseHead) (rest : List ℕ) → IsHead bytes.now h rest
        → IfOk result (λ read. IsSomeAnd read (λ head. IsKept bytes.now head h rest)) }
{
    let mut spans = [EMPTY_HEADER_SPAN; MOST_FIELDS];
    let Ok(Status::Complete(found)) = parse_response(bytes, &mut spans) else {
        return Ok(None);
    };
    if found.len > MOST_HEAD {
        return Ok(None);
    }
    Ok(Some(WholeHead {
        status: found.code,
        len: found.len,
        fields: keep_fields(alloc, bytes, &spans[..found.headers])?,
    }))
}

/// The values of the fields of a name, capitals or not, in order (RFC 9110 section 5.3). It fails for want of memory alone.
pub fn field_values(
    alloc: Global,
    fields: &HeadFields,
    name: &[u8],
) -> Result<FieldValues, NoMemory>
    ensures { IfOk result (λ own. own ≡ values_of name.now (pairs_of fields.now)) }
{
    let mut values = Listed::new(alloc);
    for field in fields.as_slice() {
        if field.is_named(name) {
            values.push(Listed::from(field.value.as_slice().to_vec(alloc)?))?;
        }
    }
    Ok(values)
}

/// The media type that the first Content-Type field names (RFC 9110 section 8.3): `no-type` where there is none, `unknown`
/// where it is not in form. It fails for want of memory alone.
pub fn media_type(alloc: Global, fields: &HeadFields) -> Result<Media, NoMemory>
    ensures { IfOk result (λ own. own ≡ media_of (pairs_of fields.now)) }
{
    let values = field_values(alloc, fields, b"content-type")?;
    match values.as_slice() {
        [first, ..] => media_in(alloc, first.as_slice()),
        _ => keep(alloc, "no-type"),
    }
}
