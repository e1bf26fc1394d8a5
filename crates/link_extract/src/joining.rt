// How references become links.
ghost use Rattle.std.specs.Prelude.{◌≡◌, IfOk, IfSome, None, string_bytes};
ghost use Rattle.crawl_kinds.specs.Address.{IsUri};
ghost use Rattle.link_spec.specs.Words.{is_blank};
ghost use Rattle.url.specs.Input.{trim_start, trim_end};
ghost use Rattle.extract_spec.specs.Joining.{cleaned, joined, linked};
ghost use Rattle.link_extract.specs.Words.{base_by, HasAddress};

use crawl_kinds::{Listed, NoMemory, Uri};
use extract_spec::Found;
use link_spec::Ref;
use std::alloc::Global;
use uri_form::{Base, UriFault};

/// The text without ASCII whitespace at either end.
fn trimmed(text: &str) -> &str
    ensures { result.now ≡ trim_end is_blank (trim_start is_blank text.now) }
{
    text.trim_ascii()
}

/// The address of a text against a base, unless it is refused.
fn joined(alloc: Global, base: &Base, text: &str) -> Result<Option<Uri>, NoMemory>
    ensures same { IfOk result (λ own. own ≡ joined base.now text.now) }
    ensures address { IfOk result (λ own. IfSome own IsUri) }
{
    match base.join(alloc, text) {
        Ok(uri) => Ok(Some(uri)),
        Err(UriFault::NoMemory) => Err(NoMemory),
        Err(_) => Ok(None),
    }
}

/// The link that a reference makes against a base, if it makes one.
pub fn linked(alloc: Global, base: &Base, reference: &Ref) -> Result<Option<Found>, NoMemory>
    ensures same { IfOk result (λ own. own ≡ linked base.now reference.now) }
    ensures address { IfOk result (λ own. IfSome own HasAddress) }
{
    let text = String::from_utf8_lossy(alloc, reference.text.as_slice())?;
    let text = trimmed(text.as_str());
    if text.is_empty() {
        return Ok(None);
    }
    let Some(uri) = joined(alloc, base, text)? else {
        return Ok(None);
    };
    Ok(Some(Found {
        letter: reference.letter,
        uri,
    }))
}

/// The address of a page's `base` against the page's own, unless it is refused.
fn base_uri(alloc: Global, own: &Base, href: &[u8]) -> Result<Option<Uri>, NoMemory>
    ensures same { IfOk result (λ uri. uri ≡ joined own.now (cleaned href.now)) }
    ensures address { IfOk result (λ uri. IfSome uri IsUri) }
{
    let text = String::from_utf8_lossy(alloc, href)?;
    joined(alloc, own, trimmed(text.as_str()))
}

/// What the references of a page are joined to: its `base`, if it has one that is not refused, or else its own address.
pub fn base_of(alloc: Global, uri: &Uri, href: &Option<Listed<u8>>) -> Result<Base, NoMemory>
    requires { IsUri uri.now }
    ensures { IfOk result (λ base. base ≡ base_by uri.now href.now) }
{
    let own = Base::of(alloc, uri)?;
    let Some(href) = href else {
        return Ok(own);
    };
    match base_uri(alloc, &own, href.as_slice())? {
        Some(base) => Base::of(alloc, &base),
        None => Ok(own),
    }
}
