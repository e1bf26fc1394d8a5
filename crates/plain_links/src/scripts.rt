// References of scripts.
ghost use Rattle.std.specs.Prelude.{◌≡◌, ◌<◌, ◌≤◌, length, IfOk, IfSome, option_map};
ghost use Rattle.std.specs.List.{prefix_len};
ghost use Rattle.link_spec.specs.Scripts.{string_refs, string_use, is_string_byte, is_address_string, looks_like_address};
ghost use Rattle.link_spec.specs.Reading.{piece_of};

use crawl_kinds::{Listed, NoMemory};
use link_spec::Refs;
use link_spec::scan::{Found, from, is_blank, is_quote, reference, up_to};
use std::alloc::Global;

/// The most bytes of a string that is taken for an address.
const MOST_STRING: usize = 2083;

fn is_string_byte(byte: u8) -> bool
    ensures { result ≡ is_string_byte byte }
{
    !(is_quote(byte) || is_blank(byte) || byte == b'\\' || byte == b'<')
}

/// How many bytes of a string stand at the front.
fn string_len(bytes: &[u8]) -> usize
    ensures count { result ≡ prefix_len is_string_byte bytes.now }
    ensures within { result ≤ length bytes.now }
{
    bytes
        .iter()
        .position(|b| !is_string_byte(*b))
        .unwrap_or(bytes.len())
}

/// Whether it is a whole address, or a path from the root.
fn looks_like_address(text: &[u8]) -> bool
    ensures { result ≡ looks_like_address text.now }
{
    text.starts_with(b"http://")
        || text.starts_with(b"https://")
        || matches!(text, [b'/', next, ..] if next.is_ascii_alphanumeric())
}

fn is_address_string(text: &[u8]) -> bool
    ensures { result ≡ is_address_string text.now }
{
    2 <= text.len() && text.len() <= MOST_STRING && looks_like_address(text)
}

/// The string in quotes at the front.
#[tactic(auto, unfolding(link_spec::specs::Scripts::string_use))]
fn string_use(text: &[u8]) -> Option<Found<'_>>
    ensures found { option_map piece_of result ≡ string_use text.now }
    ensures some { IfSome result (λ found. 0 < found.size) }
{
    let (quote, rest) = text.split_first()?;
    if !is_quote(*quote) {
        return None;
    }
    let len = string_len(rest);
    let inner = up_to(rest, len);
    if from(rest, len).starts_with(&[*quote]) && is_address_string(inner) {
        Some(Found {
            size: len + 2,
            text: inner,
        })
    } else {
        None
    }
}

/// The references of a script, in order of place: what stands in quotes and looks like an address. Scripts are not parsed.
///
/// `text` is any bytes. The only error is want of memory.
pub fn string_refs(alloc: Global, text: &[u8]) -> Result<Refs, NoMemory>
    ensures { IfOk result (λ refs. refs ≡ string_refs text.now) }
{
    let mut refs = Listed::new(alloc);
    let mut rest = text;
    while !rest.is_empty() {
        match string_use(rest) {
            Some(found) => {
                refs.push(reference(alloc, b'X', found.text)?)?;
                rest = from(rest, found.size);
            }
            None => rest = from(rest, 1),
        }
    }
    Ok(refs)
}
