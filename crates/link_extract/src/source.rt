// How the body of a response is read.
ghost use Rattle.std.specs.Prelude.{◌≡◌, IfOk};
ghost use Rattle.extract_spec.specs.Source.{is_plain, is_plain_coding, is_unencoded, source_in, source_of};
ghost use Rattle.http_message.specs.Kept.{pairs_of};

use crawl_kinds::{Listed, NoMemory};
use extract_spec::Source;
use http_message::{HeadFields, field_values, media_type, trim};
use std::alloc::Global;

/// Whether a coding changes nothing.
fn is_plain_coding(coding: &[u8]) -> bool
    ensures { result ≡ is_plain_coding coding.now }
{
    coding.is_empty() || coding.eq_ignore_ascii_case(b"identity")
}

/// Whether each coding that a value names changes nothing.
fn is_plain(value: &[u8]) -> bool
    ensures { result ≡ is_plain value.now }
{
    value
        .split(|b| *b == b',')
        .all(|part| is_plain_coding(trim(part)))
}

/// Whether no Content-Encoding field names a coding that changes the body.
fn is_unencoded(alloc: Global, fields: &HeadFields) -> Result<bool, NoMemory>
    ensures { IfOk result (λ plain. plain ≡ is_unencoded (pairs_of fields.now)) }
{
    let values = field_values(alloc, fields, b"content-encoding")?;
    Ok(
        values
            .as_slice()
            .iter()
            .all(|value| is_plain(value.as_slice())),
    )
}

/// How a body of a media type is read.
fn source_in(media: &str) -> Source
    ensures { result ≡ source_in media.now }
{
    if media == "text/html" || media == "application/xhtml+xml" {
        Source::Page
    } else if media == "text/css" {
        Source::StyleSheet
    } else if media == "text/javascript"
        || media == "application/javascript"
        || media == "application/x-javascript"
    {
        Source::Script
    } else {
        Source::Nothing
    }
}

/// How the body behind a head with these fields is read. It fails for want of memory alone.
pub fn source_of(alloc: Global, fields: &HeadFields) -> Result<Source, NoMemory>
    ensures { IfOk result (λ source. source ≡ source_of (pairs_of fields.now)) }
{
    if !is_unencoded(alloc, fields)? {
        return Ok(Source::Nothing);
    }
    Ok(source_in(media_type(alloc, fields)?.as_str()))
}
