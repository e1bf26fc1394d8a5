// What a start tag refers to.
ghost use Rattle.std.specs.Prelude.{find, ◌≡◌, ◌+◌, ◌<◌, ◌≤◌, length, take, drop, map, codes, List, IfOk, IfSome, OnOk, ◌++◌, ◌∷◌, [], option_map, option_to_list};
ghost use Rattle.std.specs.List.{prefix_len, position_or_len, slice_split, list_any};
ghost use Rattle.std.specs.Option.{option_copied};
ghost use Rattle.link_spec.specs.Attributes.{same_name};
ghost use Rattle.link_spec.specs.Cut.{before_where};
ghost use Rattle.link_spec.specs.Words.{begins, is_blank, reference};
ghost use Rattle.link_spec.specs.Values.{candidates, embedded, first_word, hyperlink, is_embedding_word, refresh_target, rel_letter};
ghost use Rattle.link_spec.specs.Elements.{attribute_refs, has_source, raw_refs, refs_by, role_if, role_of, value_of};
ghost use Rattle.html_links.specs.Words.{text_of};

use crate::attributes::same_name;
use crate::segments::same_element;
use crawl_kinds::NoMemory;
use link_spec::scan::{
    begins, blanks_len, first_of, from, is_blank, quoted, reference, same_word, up_to,
};
use link_spec::{Attribute, Element, Name, Refs, Role};
use std::alloc::Global;

/// A page to go to.
const HYPERLINK: u8 = b'L';

/// What is shown within the page.
const EMBEDDED: u8 = b'E';

/// A part of the page that is read as a style sheet.
const STYLE_PART: u8 = b'C';

/// A part of the page that is read as a script.
const SCRIPT_PART: u8 = b'S';

/// Whether the element has `src`.
fn has_source(element: Element) -> bool
    ensures { result ≡ has_source element }
{
    same_element(element, Element::Image)
        || same_element(element, Element::Video)
        || same_element(element, Element::Embedding)
        || same_element(element, Element::Script)
}

fn role_if(test: bool, role: Role) -> Role
    ensures { result ≡ role_if test role }
{
    if test { role } else { Role::Nothing }
}

/// How `href` refers.
fn href_role(element: Element) -> Role
    ensures { result ≡ role_of element Name.Href }
{
    if same_element(element, Element::Anchor) {
        return Role::Hyperlink;
    }
    role_if(same_element(element, Element::Link), Role::ByRel)
}

fn role_of(element: Element, name: Name) -> Role
    ensures { result ≡ role_of element name }
{
    match name {
        Name::Href => href_role(element),
        Name::Src => role_if(has_source(element), Role::Embedded),
        Name::Srcset => role_if(same_element(element, Element::Image), Role::Candidates),
        Name::Poster => role_if(same_element(element, Element::Video), Role::Embedded),
        Name::Data => role_if(same_element(element, Element::Object), Role::Embedded),
        Name::Background => role_if(same_element(element, Element::Body), Role::Embedded),
        Name::Content => role_if(same_element(element, Element::Meta), Role::Refresh),
        Name::Style => Role::StyleSheet,
        Name::Rel => Role::Nothing,
        Name::HttpEquiv => Role::Nothing,
    }
}

/// The attribute of this name.
pub fn attribute_named(name: Name, attributes: &[Attribute]) -> Option<&Attribute>
    ensures { option_copied result ≡ find (λ a. same_name name a.name) attributes.now }
{
    attributes.iter().find(|a| same_name(name, a.name))
}

/// The value of the attribute of this name, or nothing.
fn value_of(name: Name, attributes: &[Attribute]) -> &[u8]
    ensures { result.now ≡ value_of name attributes.now }
{
    match attribute_named(name, attributes) {
        Some(attribute) => attribute.value.as_slice(),
        None => &[],
    }
}

fn is_embedding_word(word: &[u8]) -> bool
    ensures { result ≡ is_embedding_word word.now }
{
    same_word(word, b"stylesheet")
        || same_word(word, b"icon")
        || same_word(word, b"preload")
        || same_word(word, b"manifest")
}

fn word_len(bytes: &[u8]) -> usize
    ensures count { result ≡ position_or_len is_blank bytes.now }
    ensures within { result ≤ length bytes.now }
{
    bytes
        .iter()
        .position(|b| is_blank(*b))
        .unwrap_or(bytes.len())
}

/// Whether a word of `rel` names what is embedded.
fn has_embedding_word(rel: &[u8]) -> bool
    ensures { result ≡ list_any is_embedding_word (slice_split is_blank rel.now) }
{
    let mut rest = rel;
    let mut len = word_len(rest);
    'words: while len < rest.len() {
        if is_embedding_word(up_to(rest, len)) {
            return true;
        }
        rest = from(rest, len + 1);
        len = word_len(rest);
    }
    is_embedding_word(rest)
}

/// The letter of a `link` with these words.
fn rel_letter(rel: &[u8]) -> u8
    ensures { result ≡ rel_letter rel.now }
{
    if has_embedding_word(rel) {
        EMBEDDED
    } else {
        HYPERLINK
    }
}

/// The first word, if there is one.
fn first_word(text: &[u8]) -> Option<&[u8]>
    ensures { option_to_list (option_map text_of result) ≡ first_word text.now }
{
    let rest = from(text, blanks_len(text));
    let len = word_len(rest);
    if len > 0 {
        Some(up_to(rest, len))
    } else {
        None
    }
}

/// Puts a reference at the end.
fn push(alloc: Global, refs: &mut Refs, letter: u8, text: &[u8]) -> Result<(), NoMemory>
    ensures { OnOk result (refs.new ≡ refs.old ++ reference letter text.now ∷ []) }
{
    refs.push(reference(alloc, letter, text)?)?;
    Ok(())
}

/// Puts the first word of a part at the end, if it has one.
fn push_first_word(alloc: Global, refs: &mut Refs, part: &[u8]) -> Result<(), NoMemory>
    ensures { OnOk result (refs.new ≡ refs.old ++ map (reference embedded) (first_word part.now)) }
{
    match first_word(part) {
        Some(word) => push(alloc, refs, EMBEDDED, word),
        None => Ok(()),
    }
}

/// Puts the images of a list at the end.
fn push_candidates(alloc: Global, refs: &mut Refs, value: &[u8]) -> Result<(), NoMemory>
    ensures { OnOk result (refs.new ≡ refs.old ++ map (reference embedded) (candidates value.now)) }
{
    let mut rest = value;
    while !rest.is_empty() {
        let part = first_of(rest, b',');
        push_first_word(alloc, refs, up_to(rest, part))?;
        rest = from(rest, part + 1);
    }
    Ok(())
}

/// The place of the first `url=`.
fn url_place(text: &[u8]) -> usize
    ensures place { result ≡ before_where (begins (codes "url=")) text.now }
    ensures within { result ≤ length text.now }
{
    let mut len: usize = 0;
    while len < text.len() {
        if begins(b"url=", from(text, len)) {
            return len;
        }
        len += 1;
    }
    len
}

/// Where a page is to be left for.
fn refresh_target(value: &[u8]) -> Option<&[u8]>
    ensures { option_to_list (option_map text_of result) ≡ refresh_target value.now }
{
    let at = url_place(value);
    if at == value.len() {
        return None;
    }
    let rest = from(value, at + 4);
    let target = from(rest, blanks_len(rest));
    match quoted(target) {
        Some(found) => Some(found.text),
        None => Some(target),
    }
}

/// Puts the target of a refresh at the end.
fn push_refresh(alloc: Global, refs: &mut Refs, value: &[u8]) -> Result<(), NoMemory>
    ensures { OnOk result (refs.new ≡ refs.old ++ map (reference hyperlink) (refresh_target value.now)) }
{
    match refresh_target(value) {
        Some(target) => push(alloc, refs, HYPERLINK, target),
        None => Ok(()),
    }
}

/// Puts the references of an attribute at the end, by its role.
fn push_by(
    alloc: Global,
    refs: &mut Refs,
    role: Role,
    attributes: &[Attribute],
    value: &[u8],
) -> Result<(), NoMemory>
    ensures { OnOk result (refs.new ≡ refs.old ++ refs_by role attributes.now value.now) }
{
    match role {
        Role::Nothing => Ok(()),
        Role::Hyperlink => push(alloc, refs, HYPERLINK, value),
        Role::Embedded => push(alloc, refs, EMBEDDED, value),
        Role::ByRel => push(
            alloc,
            refs,
            rel_letter(value_of(Name::Rel, attributes)),
            value,
        ),
        Role::Candidates => push_candidates(alloc, refs, value),
        Role::Refresh => {
            if same_word(value_of(Name::HttpEquiv, attributes), b"refresh") {
                push_refresh(alloc, refs, value)
            } else {
                Ok(())
            }
        }
        Role::StyleSheet => push(alloc, refs, STYLE_PART, value),
    }
}

/// Puts the references of a tag's attributes at the end, in their order.
pub fn push_attributes(
    alloc: Global,
    refs: &mut Refs,
    element: Element,
    attributes: &[Attribute],
) -> Result<(), NoMemory>
    ensures { OnOk result (refs.new ≡ refs.old ++ attribute_refs element attributes.now attributes.now) }
{
    for attribute in attributes {
        let role = role_of(element, attribute.name);
        push_by(alloc, refs, role, attributes, attribute.value.as_slice())?;
    }
    Ok(())
}

/// Puts raw text at the end, as a part of its own.
pub fn push_raw(
    alloc: Global,
    refs: &mut Refs,
    element: Element,
    raw: &[u8],
) -> Result<(), NoMemory>
    ensures { OnOk result (refs.new ≡ refs.old ++ raw_refs element raw.now) }
{
    if same_element(element, Element::Script) {
        return push(alloc, refs, SCRIPT_PART, raw);
    }
    if same_element(element, Element::Style) {
        return push(alloc, refs, STYLE_PART, raw);
    }
    Ok(())
}
