// The references of a whole page.
ghost use Rattle.std.specs.Prelude.{◌≡◌, ◌++◌, IfOk, OnOk, List};
ghost use Rattle.link_spec.specs.Elements.{html_base, html_refs, href_in, tag_base, tag_refs};
ghost use Rattle.html_links.specs.Cutting.{tag_of, tags_in};
ghost use Rattle.html_links.specs.Words.{base_of, or_first, refs_of};

use crate::elements::{attribute_named, push_attributes, push_raw};
use crate::segments::{Tag, Taken, same_element, segment};
use crawl_kinds::{Listed, NoMemory};
use link_spec::scan::from;
use link_spec::{Attribute, Element, Name, Refs};
use std::alloc::Global;

/// What a page refers to: the value of its first `base`, and its references in order.
///
/// A reference with the letter `C` is a part of the page that is read as a style sheet, one with `S` a part that is read as a
/// script.
#[derive(Drop)]
pub struct HtmlRefs {
    pub base: Option<Listed<u8>>,
    pub refs: Refs,
}

/// Puts the references of a tag at the end.
fn push_tag(alloc: Global, refs: &mut Refs, tag: &Tag<'_>) -> Result<(), NoMemory>
    ensures { OnOk result (refs.new ≡ refs.old ++ tag_refs (tag_of tag.now)) }
{
    push_attributes(alloc, refs, tag.element, tag.attributes.as_slice())?;
    push_raw(alloc, refs, tag.element, tag.raw)
}

/// The value of the attribute `href`.
fn href(alloc: Global, attributes: &[Attribute]) -> Result<Option<Listed<u8>>, NoMemory>
    ensures { IfOk result (λ found. found ≡ href_in attributes.now) }
{
    match attribute_named(Name::Href, attributes) {
        Some(attribute) => Ok(Some(Listed::from(attribute.value.as_slice().to_vec(alloc)?))),
        None => Ok(None),
    }
}

/// The base that a tag gives.
fn tag_base(alloc: Global, tag: &Tag<'_>) -> Result<Option<Listed<u8>>, NoMemory>
    ensures { IfOk result (λ found. found ≡ tag_base (tag_of tag.now)) }
{
    if same_element(tag.element, Element::Base) {
        href(alloc, tag.attributes.as_slice())
    } else {
        Ok(None)
    }
}

/// Keeps the base of a tag, where there is none so far.
fn take_base(alloc: Global, base: &mut Option<Listed<u8>>, tag: &Tag<'_>) -> Result<(), NoMemory>
    ensures { OnOk result (base.new ≡ or_first base.old (tag_base (tag_of tag.now))) }
{
    if base.is_some() {
        return Ok(());
    }
    *base = tag_base(alloc, tag)?;
    Ok(())
}

/// Takes what a segment refers to.
fn take(alloc: Global, page: &mut HtmlRefs, found: &Taken<'_>) -> Result<(), NoMemory>
    ensures refs { OnOk result (page.new.refs ≡ page.old.refs ++ refs_of (tags_in found.now.tag)) }
    ensures base { OnOk result (page.new.base ≡ or_first page.old.base (base_of (tags_in found.now.tag))) }
{
    let Some(tag) = &found.tag else {
        return Ok(());
    };
    push_tag(alloc, &mut page.refs, tag)?;
    take_base(alloc, &mut page.base, tag)
}

/// The references of a page (after HTML Standard §13.1), in order.
///
/// `payload` is any bytes. Nothing is joined to the base, and no reference is checked: an empty one and one that is no address
/// stand there too. The only error is want of memory.
pub fn html_refs(alloc: Global, payload: &[u8]) -> Result<HtmlRefs, NoMemory>
    ensures base { IfOk result (λ page. page.base ≡ html_base payload.now) }
    ensures refs { IfOk result (λ page. page.refs ≡ html_refs payload.now) }
{
    let mut page = HtmlRefs {
        base: None,
        refs: Listed::new(alloc),
    };
    let mut rest = payload;
    while !rest.is_empty() {
        let found = segment(alloc, rest)?;
        take(alloc, &mut page, &found)?;
        rest = from(rest, found.size);
    }
    Ok(page)
}
