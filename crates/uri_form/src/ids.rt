// Session ids, and paths and queries without them.
ghost use Rattle.std.specs.Prelude.{◌≡◌, ℕ, ◌<◌, ◌==◌, ◌&&◌, ◌||◌, ◌++◌, ◌∷◌, List, [], drop, flat_map, IsTrue, OnOk, string_bytes};
ghost use Rattle.std.specs.List.{list_all, slice_split};
ghost use Rattle.url.specs.Input.{trim_end};
ghost use Rattle.uri_spec.specs.Key.{nonempty};
ghost use Rattle.uri_spec.specs.SessionId.{ampersand, behind, has_id, id_mark, is_asp_name, is_id_byte, is_id_member, is_id_name, is_run, is_small_letter, part_text, path_without_ids, query_without_ids};
ghost use Rattle.uri_spec.specs.Surt.{query_text};
ghost use Rattle.uri_form.specs.Members.{member_text};

use crate::cut::cut_first;
use crawl_kinds::NoMemory;
use std::alloc::Global;

fn is_small_letter(byte: u8) -> bool
    ensures { result ≡ is_small_letter byte }
{
    b'a' <= byte && byte <= b'z'
}

fn is_id_byte(byte: u8) -> bool
    ensures { result ≡ is_id_byte byte }
{
    is_small_letter(byte) || byte.is_ascii_digit()
}

fn are_id_bytes(bytes: &[u8]) -> bool
    ensures { result ≡ list_all is_id_byte bytes.now }
{
    bytes.iter().all(|b| is_id_byte(*b))
}

fn are_small_letters(bytes: &[u8]) -> bool
    ensures { result ≡ list_all is_small_letter bytes.now }
{
    bytes.iter().all(|b| is_small_letter(*b))
}

/// Exactly so many small letters and digits.
fn is_id(bytes: &[u8], count: usize) -> bool
    ensures { result ≡ is_run is_id_byte count bytes.now }
{
    bytes.len() == count && are_id_bytes(bytes)
}

/// Exactly so many small letters.
fn is_word(bytes: &[u8], count: usize) -> bool
    ensures { result ≡ is_run is_small_letter count bytes.now }
{
    bytes.len() == count && are_small_letters(bytes)
}

/// Whether a part of a path begins with a session id.
fn has_id(part: &[u8]) -> bool
    ensures { result ≡ has_id part.now }
{
    if !part.starts_with(b"jsessionid=") {
        return false;
    }
    if part.len() < 43 {
        return false;
    }
    is_id(&part[11..43], 32)
}

/// What follows the session id with which a part of a path begins.
fn after_id(part: &str) -> &str
    requires { IsTrue (has_id part.now) }
    ensures { result.now ≡ drop 32 (behind id_mark part.now) }
{
    &part[43..]
}

/// A name that holds a session id of 32 letters and digits.
fn is_id_name(name: &str) -> bool
    ensures { result ≡ is_id_name name.now }
{
    name == "jsessionid" || name == "phpsessid" || name == "sid"
}

/// `aspsessionid` and 8 letters.
fn is_asp_name(name: &[u8]) -> bool
    ensures { result ≡ is_asp_name name.now }
{
    name.starts_with(b"aspsessionid") && is_word(&name[12..], 8)
}

/// Whether a name and a value make a session id.
fn is_id_pair(name: &str, value: &[u8]) -> bool
    ensures { result ≡ ((is_id_name name.now && is_run is_id_byte 32 value.now)
        || (is_asp_name name.now && is_run is_small_letter 24 value.now)) }
{
    (is_id_name(name) && is_id(value, 32)) || (is_asp_name(name.as_bytes()) && is_word(value, 24))
}

/// Whether a member of a query is a session id.
fn is_id_member(member: &str) -> bool
    ensures { result ≡ is_id_member member.now }
{
    match member.split_once('=') {
        Some((name, value)) => is_id_pair(name, value.as_bytes()),
        None => false,
    }
}

/// How a part of a text between marks is written.
trait Part {
    /// What is written of it.
    ghost text: { List ℕ → List ℕ };

    /// Puts it at the end of a text.
    fn push(out: &mut String, part: &str) -> Result<(), NoMemory>
        ensures { OnOk result (string_bytes out.new ≡ string_bytes out.old ++ text part.now) };
}

/// Puts each part of a text between marks at the end of another.
fn push_parts<P: Part>(out: &mut String, text: &str, mark: char) -> Result<(), NoMemory>
    requires { mark < 128 }
    ensures { OnOk result (string_bytes out.new
        ≡ string_bytes out.old ++ flat_map P.text (slice_split (λ b. b == mark) text.now)) }
{
    let mut rest = text;
    'parts: while let Some((part, more)) = cut_first(rest, mark) {
        P::push(out, part)?;
        rest = more;
    }
    P::push(out, rest)
}

/// A part of a path after a `;`: without the session id with which it begins.
struct PathPart;

impl Part for PathPart {
    ghost use Rattle.uri_spec.specs.SessionId.{part_text};

    ghost text = { part_text };

    fn push(out: &mut String, part: &str) -> Result<(), NoMemory> {
        if has_id(part.as_bytes()) {
            out.push_str(after_id(part))?;
            return Ok(());
        }
        out.push_str(";")?;
        out.push_str(part)?;
        Ok(())
    }
}

/// A member of a query behind its `&`, unless it is a session id.
struct Member;

impl Part for Member {
    ghost use Rattle.uri_form.specs.Members.{member_text};

    ghost text = { member_text };

    fn push(out: &mut String, part: &str) -> Result<(), NoMemory> {
        if is_id_member(part) {
            return Ok(());
        }
        out.push_str("&")?;
        out.push_str(part)?;
        Ok(())
    }
}

/// Puts a path at the end of a text, without its session ids.
pub(crate) fn push_path(out: &mut String, path: &str) -> Result<(), NoMemory>
    ensures { OnOk result (string_bytes out.new ≡ string_bytes out.old ++ path_without_ids path.now) }
{
    let Some((first, rest)) = cut_first(path, ';') else {
        out.push_str(path)?;
        return Ok(());
    };
    out.push_str(first)?;
    push_parts::<PathPart>(out, rest, ';')
}

/// Members without the `&` before the first.
fn joined(members: &str) -> &str
    ensures none { members.now ≡ [] → result.now ≡ [] }
    ensures some { (rest : List ℕ) → members.now ≡ ampersand ∷ rest → result.now ≡ rest }
{
    match members.strip_prefix('&') {
        Some(rest) => rest,
        None => members,
    }
}

/// The text without each `&` at its end.
fn without_end(text: &str) -> &str
    ensures { result.now ≡ trim_end (λ b. b == ampersand) text.now }
{
    let mut rest = text;
    'ends: while let Some(short) = rest.strip_suffix('&') {
        rest = short;
    }
    rest
}

/// Puts `?` and a query at the end of a text, unless it is empty.
fn push_nonempty(out: &mut String, query: &str) -> Result<(), NoMemory>
    ensures { OnOk result (string_bytes out.new ≡ string_bytes out.old ++ query_text (nonempty query.now)) }
{
    if query.is_empty() {
        return Ok(());
    }
    out.push_str("?")?;
    out.push_str(query)?;
    Ok(())
}

/// Puts `?` and a query at the end of a text, without its session ids and without each `&` at its end, unless nothing is
/// left of it.
pub(crate) fn push_query(alloc: Global, out: &mut String, query: &str) -> Result<(), NoMemory>
    ensures { OnOk result (string_bytes out.new ≡ string_bytes out.old
        ++ query_text (nonempty (trim_end (λ b. b == ampersand) (query_without_ids query.now)))) }
{
    let mut members = String::new(alloc);
    push_parts::<Member>(&mut members, query, '&')?;
    push_nonempty(out, without_end(joined(members.as_str())))
}
