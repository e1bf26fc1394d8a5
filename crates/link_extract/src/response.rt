// The links of a response.
ghost use Rattle.std.specs.Prelude.{◌≡◌, ◌≤◌, ◌<◌, ◌++◌, ◌∷◌, [], ℕ, List, length, All, IfOk, OnOk};
ghost use Rattle.std.specs.List.{flat_map};
ghost use Rattle.crawl_kinds.specs.Address.{IsUri};
ghost use Rattle.httparse.specs.Grammar.{ResponseHead, status_code};
ghost use Rattle.page_spec.specs.Response.{fields_of, IsHead};
ghost use Rattle.http_message.specs.Kept.{pairs_of};
ghost use Rattle.http_message.specs.Reading.{NoHead};
ghost use Rattle.extract_spec.specs.Joining.{base_of, html_base_of};
ghost use Rattle.extract_spec.specs.Links.{body_refs, header_refs, links_from, links_of, most_links, page_refs, part_refs};
ghost use Rattle.link_extract.specs.Words.{HasAddress, HasLetter};
ghost use Rattle.link_extract.specs.Growing.{with_refs};

use crate::joining::{base_of, linked};
use crate::list::Links;
use crate::source::source_of;
use crawl_kinds::{Listed, NoMemory, Uri};
use extract_spec::Source;
use html_links::html_refs;
use http_message::{HeadFields, field_values, read_fields};
use link_spec::scan::{from, reference};
use link_spec::{Ref, Refs};
use plain_links::{css_refs, string_refs};
use std::alloc::Global;
use uri_form::Base;

/// The references of a head: for a status from 300 to 399 the value of each Location field (RFC 9110 section 10.2.2), with the
/// letter `R`.
///
/// `fields` are those of the head, in order. The only error is want of memory.
pub fn header_refs(alloc: Global, status: u16, fields: &HeadFields) -> Result<Refs, NoMemory>
    ensures { IfOk result (λ refs. refs ≡ header_refs status (pairs_of fields.now)) }
{
    let mut refs = Listed::new(alloc);
    if status < 300 || 399 < status {
        return Ok(refs);
    }
    let values = field_values(alloc, fields, b"location")?;
    for value in values.as_slice() {
        refs.push(reference(alloc, b'R', value.as_slice())?)?;
    }
    Ok(refs)
}

/// Takes a reference: puts its link at the end, if it makes one.
fn take_ref(alloc: Global, links: &mut Links, base: &Base, reference: &Ref) -> Result<(), NoMemory>
    requires { length links.old < most_links }
    ensures links { OnOk result (links.new ≡ with_refs links.old base.now (reference.now ∷ [])) }
    ensures addresses { OnOk result (All HasAddress links.old → All HasAddress links.new) }
{
    if let Some(found) = linked(alloc, base, reference)? {
        links.push(found)?;
    }
    Ok(())
}

/// Takes references as long as there is room for links.
fn take_refs(alloc: Global, links: &mut Links, base: &Base, refs: &[Ref]) -> Result<(), NoMemory>
    requires { length links.old ≤ most_links }
    ensures links { OnOk result (links.new ≡ with_refs links.old base.now refs.now) }
    ensures addresses { OnOk result (All HasAddress links.old → All HasAddress links.new) }
{
    for reference in refs {
        if links.is_full() {
            return Ok(());
        }
        take_ref(alloc, links, base, reference)?;
    }
    Ok(())
}

/// Takes a reference of a page, or those of the part that it is.
fn take_part(alloc: Global, links: &mut Links, base: &Base, reference: &Ref) -> Result<(), NoMemory>
    requires { length links.old < most_links }
    ensures links { OnOk result (links.new ≡ with_refs links.old base.now (part_refs reference.now)) }
    ensures addresses { OnOk result (All HasAddress links.old → All HasAddress links.new) }
{
    let text = reference.text.as_slice();
    if reference.letter == b'C' {
        let refs = css_refs(alloc, text)?;
        return take_refs(alloc, links, base, refs.as_slice());
    }
    if reference.letter == b'S' {
        let refs = string_refs(alloc, text)?;
        return take_refs(alloc, links, base, refs.as_slice());
    }
    take_ref(alloc, links, base, reference)
}

/// Takes the references of a page as long as there is room for links.
fn take_parts(alloc: Global, links: &mut Links, base: &Base, refs: &[Ref]) -> Result<(), NoMemory>
    requires { length links.old ≤ most_links }
    ensures links { OnOk result (links.new ≡ with_refs links.old base.now (flat_map part_refs refs.now)) }
    ensures addresses { OnOk result (All HasAddress links.old → All HasAddress links.new) }
{
    for reference in refs {
        if links.is_full() {
            return Ok(());
        }
        take_part(alloc, links, base, reference)?;
    }
    Ok(())
}

/// The links of redirects and then of a page.
fn page_links(alloc: Global, uri: &Uri, redirects: &Refs, payload: &[u8]) -> Result<Links, NoMemory>
    requires { IsUri uri.now }
    ensures links { IfOk result (λ links. links
        ≡ links_from (html_base_of uri.now payload.now) (redirects.now ++ page_refs payload.now)) }
    ensures addresses { IfOk result (All HasAddress) }
{
    let page = html_refs(alloc, payload)?;
    let base = base_of(alloc, uri, &page.base)?;
    let mut links = Links::new(alloc);
    take_refs(alloc, &mut links, &base, redirects.as_slice())?;
    take_parts(alloc, &mut links, &base, page.refs.as_slice())?;
    Ok(links)
}

/// The links of redirects and then of other references.
fn plain_links(alloc: Global, uri: &Uri, redirects: &Refs, refs: &Refs) -> Result<Links, NoMemory>
    requires { IsUri uri.now }
    ensures links { IfOk result (λ links. links ≡ links_from uri.now (redirects.now ++ refs.now)) }
    ensures addresses { IfOk result (All HasAddress) }
{
    let base = Base::of(alloc, uri)?;
    let mut links = Links::new(alloc);
    take_refs(alloc, &mut links, &base, redirects.as_slice())?;
    take_refs(alloc, &mut links, &base, refs.as_slice())?;
    Ok(links)
}

/// The links of redirects and then of a body.
fn body_links(
    alloc: Global,
    uri: &Uri,
    redirects: &Refs,
    source: Source,
    payload: &[u8],
) -> Result<Links, NoMemory>
    requires { IsUri uri.now }
    ensures links { IfOk result (λ links. links
        ≡ links_from (base_of uri.now source payload.now) (redirects.now ++ body_refs source payload.now)) }
    ensures addresses { IfOk result (All HasAddress) }
{
    match source {
        Source::Page => page_links(alloc, uri, redirects, payload),
        Source::StyleSheet => plain_links(alloc, uri, redirects, &css_refs(alloc, payload)?),
        Source::Script => plain_links(alloc, uri, redirects, &string_refs(alloc, payload)?),
        Source::Nothing => plain_links(alloc, uri, redirects, &Listed::new(alloc)),
    }
}

/// The links of the response of an address, in order, the first 6,000: the redirects of its head, and then those of its body
/// where that is HTML, a style sheet or a script without a Content-Encoding.
///
/// `uri` is the address of the response, and `block` holds its bytes from the first of its head on. What follows the head is
/// the payload: a chunked body is not read as such. Where no head stands at the front there are no links. The only error is
/// want of memory.
pub fn extract(alloc: Global, uri: &Uri, block: &[u8]) -> Result<Links, NoMemory>
    requires { IsUri uri.now }
    ensures links { (h : ResponseHead) (payload : List ℕ) → IsHead block.now h payload
        → IfOk result (λ links. links ≡ links_of uri.now (status_code h) (fields_of h) payload) }
    ensures none { NoHead block.now → IfOk result (λ links. links ≡ []) }
    ensures addresses { IfOk result (All HasAddress) }
    ensures letters { IfOk result (All HasLetter) }
{
    let Some(head) = read_fields(alloc, block)? else {
        return Ok(Links::new(alloc));
    };
    let redirects = header_refs(alloc, head.status, &head.fields)?;
    let source = source_of(alloc, &head.fields)?;
    body_links(alloc, uri, &redirects, source, from(block, head.len))
}
