// SURT forms of addresses, whose texts sort by domain, and the classes of addresses.
ghost use Rattle.std.specs.Prelude.{◌≡◌, ◌++◌, IfOk, OnOk, IsTrue, string_bytes};
ghost use Rattle.crawl_kinds.specs.Address.{IsUri, is_web};
ghost use Rattle.crawl_kinds.specs.Text.{is_visible};
ghost use Rattle.url.specs.Parts.{host_or_empty};
ghost use Rattle.uri_spec.specs.Surt.{authority_of, class_of, class_text, is_https, reversed_labels, surt_host, surt_of, surt_text};

use crate::cut::cut_last;
use crate::reading::{is_visible, keep, url_of};
use crawl_kinds::{ClassKey, NoMemory, Text, TextForm, Uri};
use std::alloc::Global;
use url::{Position, Url};

/// SURT forms and their prefixes: at most 2,200 visible bytes.
#[derive(Debug, Drop)]
pub struct SurtForm;

impl TextForm for SurtForm {
    ghost use Rattle.crawl_kinds.specs.Text.{is_visible};

    ghost allowed = { is_visible };

    ghost most = { 2200 };

    fn allows(byte: u8) -> bool {
        is_visible(byte)
    }

    fn most() -> usize {
        2200
    }
}

/// The SURT form of an address, or a prefix of one.
pub type Surt = Text<SurtForm>;

/// Puts the labels of a host name in reverse order, each followed by a comma, at the end of a text.
fn push_labels(out: &mut String, name: &str) -> Result<(), NoMemory>
    ensures { OnOk result (string_bytes out.new ≡ string_bytes out.old ++ reversed_labels name.now) }
{
    let mut rest = name;
    'labels: while let Some((front, label)) = cut_last(rest, '.') {
        out.push_str(label)?;
        out.push_str(",")?;
        rest = front;
    }
    out.push_str(rest)?;
    out.push_str(",")?;
    Ok(())
}

/// Puts a host in SURT form at the end of a text.
fn push_host(out: &mut String, url: &Url) -> Result<(), NoMemory>
    requires { IsTrue (is_web url.now) }
    ensures { OnOk result (string_bytes out.new ≡ string_bytes out.old ++ surt_host (host_or_empty url.now)) }
{
    match url.domain() {
        Some(name) => push_labels(out, name),
        None => Ok(out.push_str(url.slice(Position::BeforeHost, Position::AfterHost))?),
    }
}

/// Puts the host and the port in SURT form at the end of a text.
pub(crate) fn push_authority(out: &mut String, url: &Url) -> Result<(), NoMemory>
    requires { IsTrue (is_web url.now) }
    ensures { OnOk result (string_bytes out.new ≡ string_bytes out.old ++ authority_of url.now) }
{
    push_host(out, url)?;
    out.push_str(url.slice(Position::AfterHost, Position::AfterPort))?;
    Ok(())
}

/// Puts the class at the end of a text.
pub(crate) fn push_class(out: &mut String, url: &Url) -> Result<(), NoMemory>
    requires { IsTrue (is_web url.now) }
    ensures { OnOk result (string_bytes out.new ≡ string_bytes out.old ++ class_of url.now) }
{
    push_authority(out, url)?;
    if url.scheme() == "https" {
        out.push_str("#https")?;
    }
    Ok(())
}

/// The SURT form of a URL.
fn surt_of(alloc: Global, url: &Url) -> Result<String, NoMemory>
    requires { IsTrue (is_web url.now) }
    ensures { IfOk result (λ text. string_bytes text ≡ surt_of url.now) }
{
    let mut out = String::from_str(alloc, "http://(")?;
    push_authority(&mut out, url)?;
    out.push_str(")")?;
    out.push_str(url.slice(Position::BeforePath, Position::AfterQuery))?;
    Ok(out)
}

/// The class of a URL.
pub(crate) fn class_of(alloc: Global, url: &Url) -> Result<String, NoMemory>
    requires { IsTrue (is_web url.now) }
    ensures { IfOk result (λ text. string_bytes text ≡ class_of url.now) }
{
    let mut out = String::new(alloc);
    push_class(&mut out, url)?;
    Ok(out)
}

/// The SURT form of an address: its host by labels in reverse order, without user name and password, and https
/// written as http.
pub fn surt(alloc: Global, uri: &Uri) -> Result<Surt, NoMemory>
    requires { IsUri uri.now }
    ensures { IfOk result (λ own. own ≡ surt_text uri.now) }
{
    let url = url_of(alloc, uri)?;
    let text = surt_of(alloc, &url)?;
    keep(alloc, text.as_str())
}

/// The class of an address, which names its queue: host and port in SURT form, with `#https` for https.
pub fn class_key(alloc: Global, uri: &Uri) -> Result<ClassKey, NoMemory>
    requires { IsUri uri.now }
    ensures { IfOk result (λ own. own ≡ class_text uri.now) }
{
    let url = url_of(alloc, uri)?;
    let text = class_of(alloc, &url)?;
    keep(alloc, text.as_str())
}
