// References of style sheets.
ghost use Rattle.std.specs.Prelude.{◌≡◌, ◌+◌, ◌≤◌, ◌<◌, length, IfOk, IfSome, option_map};
ghost use Rattle.link_spec.specs.Css.{css_refs, css_use, import_value, quoted_or_bare, url_value};
ghost use Rattle.link_spec.specs.Reading.{piece_of};

use crawl_kinds::{Listed, NoMemory};
use link_spec::Refs;
use link_spec::scan::{Found, begins, blanks_len, closed_by, from, quoted, reference};
use std::alloc::Global;

fn quoted_or_bare(text: &[u8]) -> Found<'_>
    ensures found { piece_of result ≡ quoted_or_bare text.now }
    ensures within { result.size ≤ length text.now + 1 }
{
    match quoted(text) {
        Some(found) => found,
        None => closed_by(text, b')'),
    }
}

/// What stands behind `url(`.
fn url_value(text: &[u8]) -> Found<'_>
    ensures found { piece_of result ≡ url_value text.now }
    ensures within { result.size ≤ length text.now + 1 }
{
    let blanks = blanks_len(text);
    let found = quoted_or_bare(from(text, blanks));
    Found {
        size: blanks + found.size,
        text: found.text,
    }
}

/// What stands behind `@import`.
fn import_value(text: &[u8]) -> Option<Found<'_>>
    ensures found { option_map piece_of result ≡ import_value text.now }
    ensures within { IfSome result (λ found. found.size ≤ length text.now + 1) }
{
    let blanks = blanks_len(text);
    let found = quoted(from(text, blanks))?;
    Some(Found {
        size: blanks + found.size,
        text: found.text,
    })
}

/// The use of an address at the front.
#[tactic(auto, unfolding(link_spec::specs::Css::css_use))]
fn css_use(text: &[u8]) -> Option<Found<'_>>
    ensures found { option_map piece_of result ≡ css_use text.now }
    ensures some { IfSome result (λ found. 0 < found.size) }
{
    if begins(b"url(", text) {
        let found = url_value(from(text, 4));
        return Some(Found {
            size: 4 + found.size,
            text: found.text,
        });
    }
    if begins(b"@import", text) {
        let found = import_value(from(text, 7))?;
        return Some(Found {
            size: 7 + found.size,
            text: found.text,
        });
    }
    None
}

/// The references of a style sheet, in order of place: `url(..)` with or without quotes (CSS Values and Units §4.5) and
/// `@import` with a quoted text (CSS Cascading and Inheritance §2), in whatever case.
///
/// `text` is any bytes. What is not closed runs to its end. The only error is want of memory.
pub fn css_refs(alloc: Global, text: &[u8]) -> Result<Refs, NoMemory>
    ensures { IfOk result (λ refs. refs ≡ css_refs text.now) }
{
    let mut refs = Listed::new(alloc);
    let mut rest = text;
    while !rest.is_empty() {
        match css_use(rest) {
            Some(found) => {
                refs.push(reference(alloc, b'E', found.text)?)?;
                rest = from(rest, found.size);
            }
            None => rest = from(rest, 1),
        }
    }
    Ok(refs)
}
