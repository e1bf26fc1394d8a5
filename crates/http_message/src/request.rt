// The request for an address.
ghost use Rattle.std.specs.Prelude.{◌≡◌, ◌++◌, codes, string_bytes, IfOk, OnOk};
ghost use Rattle.crawl_kinds.specs.Address.{IsUri};
ghost use Rattle.page_spec.specs.Request.{agent_line, host_of, line, request_text, target_of};
ghost use Rattle.uri_spec.specs.Surt.{port_text};

use crate::reading::url_of;
use crawl_kinds::{NoMemory, Settings, Uri};
use std::alloc::Global;
use url::{Position, Url};

/// Puts what is asked for at the end of a text.
fn push_target(out: &mut String, url: &Url, settings: &Settings) -> Result<(), NoMemory>
    ensures { OnOk result (string_bytes out.new ≡ string_bytes out.old ++ target_of settings.now.proxy url.now) }
{
    match &settings.proxy {
        None => out.push_str(url.slice(Position::BeforePath, Position::AfterQuery))?,
        Some(_) => {
            out.push_str(url.slice(Position::BeforeScheme, Position::BeforeUsername))?;
            out.push_str(url.slice(Position::BeforeHost, Position::AfterQuery))?;
        }
    }
    Ok(())
}

/// Puts the request line at the end of a text (RFC 9112 section 3).
fn push_request_line(out: &mut String, url: &Url, settings: &Settings) -> Result<(), NoMemory>
    ensures { OnOk result (string_bytes out.new ≡ string_bytes out.old ++ line (codes "GET " ++ (target_of settings.now.proxy url.now ++ codes " HTTP/1.0"))) }
{
    out.push_str("GET ")?;
    push_target(out, url, settings)?;
    out.push_str(" HTTP/1.0\r\n")?;
    Ok(())
}

/// Puts the line that names the host at the end of a text (RFC 9110 section 7.2).
fn push_host_line(out: &mut String, url: &Url) -> Result<(), NoMemory>
    ensures { OnOk result (string_bytes out.new ≡ string_bytes out.old ++ line (codes "Host: " ++ (host_of url.now ++ port_text url.now.port))) }
{
    out.push_str("Host: ")?;
    out.push_str(url.slice(Position::BeforeHost, Position::AfterPort))?;
    out.push_str("\r\n")?;
    Ok(())
}

/// Puts how the crawler names itself at the end of a text.
fn push_agent(out: &mut String, settings: &Settings) -> Result<(), NoMemory>
    ensures { OnOk result (string_bytes out.new ≡ string_bytes out.old ++ agent_line settings.now) }
{
    out.push_str("Mozilla/5.0 (compatible; ")?;
    out.push_str(settings.agent.as_str())?;
    out.push_str("/1 +")?;
    out.push_str(settings.contact.as_str())?;
    out.push_str(")")?;
    Ok(())
}

/// Puts the line that names the crawler at the end of a text (RFC 9110 section 10.1.5).
fn push_agent_line(out: &mut String, settings: &Settings) -> Result<(), NoMemory>
    ensures { OnOk result (string_bytes out.new ≡ string_bytes out.old ++ line (codes "User-Agent: " ++ agent_line settings.now)) }
{
    out.push_str("User-Agent: ")?;
    push_agent(out, settings)?;
    out.push_str("\r\n")?;
    Ok(())
}

/// Puts a line at the end of a text.
fn push_line(out: &mut String, text: &str) -> Result<(), NoMemory>
    ensures { OnOk result (string_bytes out.new ≡ string_bytes out.old ++ line text.now) }
{
    out.push_str(text)?;
    out.push_str("\r\n")?;
    Ok(())
}

/// The request for an address, by the name of the crawler and the address of who runs it in the settings, and for
/// their proxy where they have one. It fails for want of memory alone.
pub fn request_bytes(alloc: Global, uri: &Uri, settings: &Settings) -> Result<Vec<u8>, NoMemory>
    requires { IsUri uri.now }
    ensures { IfOk result (λ bytes. bytes.items ≡ request_text uri.now settings.now) }
{
    let url = url_of(alloc, uri)?;
    let mut out = String::new(alloc);
    push_request_line(&mut out, &url, settings)?;
    push_host_line(&mut out, &url)?;
    push_agent_line(&mut out, settings)?;
    push_line(&mut out, "Accept: */*")?;
    push_line(&mut out, "Accept-Encoding: identity")?;
    push_line(&mut out, "Connection: close")?;
    push_line(&mut out, "")?;
    Ok(out.into_bytes())
}
