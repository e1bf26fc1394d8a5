// Where a request goes.
ghost use Rattle.std.specs.Prelude.{◌≡◌, codes, bytes_eq, string_bytes, unwrap_or, IfOk};
ghost use Rattle.crawl_kinds.specs.Address.{IsUri};
ghost use Rattle.page_spec.specs.Peer.{is_supported, peer_host, peer_port, port_number, proxy_host, proxy_port};
ghost use Rattle.page_spec.specs.Request.{host_in, port_in, scheme_in};

use crate::fields::{is_count, number};
use crate::reading::url_of;
use crawl_kinds::{NoMemory, Settings, Uri};
use std::alloc::Global;
use url::Position;

/// The port of http where none is written (RFC 9110 section 4.2.1).
const HTTP_PORT: u16 = 80;

/// The server that a request goes to.
#[derive(Drop)]
pub struct Peer {
    /// The host as the address writes it, an IPv6 address between brackets, or the proxy's.
    pub host: String,
    pub port: u16,
}

/// A port in decimal digits, and 80 where none stands there.
fn port_number(text: &[u8]) -> u16
    ensures { result ≡ port_number text.now }
{
    if !is_count(text) {
        return HTTP_PORT;
    }
    let port = number(text);
    if port <= 65535 {
        port as u16
    } else {
        HTTP_PORT
    }
}

/// The host and the port of a proxy `HOST:PORT`.
fn proxy_of(alloc: Global, proxy: &str) -> Result<Peer, NoMemory>
    ensures host { IfOk result (λ peer. string_bytes peer.host ≡ proxy_host proxy.now) }
    ensures port { IfOk result (λ peer. peer.port ≡ proxy_port proxy.now) }
{
    let (host, port) = match proxy.split_once(':') {
        Some((host, port)) => (host, port_number(port.as_bytes())),
        None => (proxy, HTTP_PORT),
    };
    let host = String::from_str(alloc, host)?;
    Ok(Peer { host, port })
}

/// The host and the port of an address.
fn server_of(alloc: Global, uri: &Uri) -> Result<Peer, NoMemory>
    requires { IsUri uri.now }
    ensures host { IfOk result (λ peer. string_bytes peer.host ≡ host_in uri.now) }
    ensures port { IfOk result (λ peer. peer.port ≡ port_in uri.now) }
{
    let url = url_of(alloc, uri)?;
    let port = url.port().unwrap_or(HTTP_PORT);
    let host = String::from_str(alloc, url.slice(Position::BeforeHost, Position::AfterHost))?;
    Ok(Peer { host, port })
}

/// The host and the port to connect to for an address: those of the proxy `HOST:PORT`, where the settings name one, and
/// else those of the address. A job's proxy has that form; of any other text what stands before its first `:` is the host,
/// and the port is 80 where no decimal number up to 65535 stands behind it. It fails for want of memory alone.
pub fn peer_of(alloc: Global, uri: &Uri, settings: &Settings) -> Result<Peer, NoMemory>
    requires { IsUri uri.now }
    ensures host { IfOk result (λ peer. string_bytes peer.host ≡ peer_host settings.now.proxy uri.now) }
    ensures port { IfOk result (λ peer. peer.port ≡ peer_port settings.now.proxy uri.now) }
{
    match &settings.proxy {
        Some(proxy) => proxy_of(alloc, proxy.as_str()),
        None => server_of(alloc, uri),
    }
}

/// Whether an address is of scheme http.
fn is_plain(uri: &Uri) -> bool
    requires { IsUri uri.now }
    ensures { result ≡ bytes_eq (scheme_in uri.now) (codes "http") }
{
    uri.as_bytes().starts_with(b"http:")
}

/// Whether an address can be asked for: it is of http, or the settings name a proxy.
pub fn is_supported(uri: &Uri, settings: &Settings) -> bool
    requires { IsUri uri.now }
    ensures { result ≡ is_supported settings.now uri.now }
{
    settings.proxy.is_some() || is_plain(uri)
}
