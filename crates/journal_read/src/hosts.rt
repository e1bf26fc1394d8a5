// Hosts whose addresses were read before: the next ones need no parse.
ghost use Rattle.std.specs.Prelude.{◌≡◌, nat_eq, [], IfOk, MatchOption};
ghost use Rattle.std.specs.List.{starts_with};
ghost use Rattle.crawl_kinds.specs.Address.{IsUri};
ghost use Rattle.uri_form.specs.Named.{IsNamed};

use crawl_kinds::{NoMemory, Uri};
use std::alloc::{AllocError, Global};
use std::marker::Model;
use uri_form::{Named, Site, UriFault, named_on, named_uri, parse_uri, site_of};

/// How many hosts have a place.
const PLACES: usize = 1024;

/// What the addresses of a host share. Contracts see what stands before their paths.
#[derive(Drop)]
struct Host {
    site: Site,
}

impl Model for Host {
    ghost use Rattle.std.specs.Prelude.{List, ℕ, string_bytes};
    ghost use Rattle.uri_form.specs.Named.{IsSite};

    ghost Value = { List ℕ };

    ghost view = { λ a. string_bytes a.site.head };

    ghost invariant = { λ a. IsSite a.site };
}

impl Host {
    /// The host of an address.
    fn of(alloc: Global, uri: &Uri) -> Result<Self, NoMemory>
        requires { IsUri uri.now }
    {
        Ok(Host {
            site: site_of(alloc, uri)?,
        })
    }

    /// Whether a text begins as the addresses of the host do.
    fn begins(&self, text: &str) -> bool
        ensures { result ≡ starts_with nat_eq text.now self.now }
    {
        text.as_bytes().starts_with(self.site.head.as_bytes())
    }

    /// Reads and names an address.
    fn named(&self, alloc: Global, text: &str) -> Result<Option<Named>, NoMemory>
        ensures { IfOk result (λ found. MatchOption found (IsUri text.now → ⊥) (IsNamed text.now)) }
    {
        named_on(alloc, &self.site, text)
    }
}

/// Reads an address that is in the form in which it is written.
fn written_uri(alloc: Global, text: &str) -> Result<Option<Uri>, NoMemory>
    ensures { IfOk result (λ found. MatchOption found (IsUri text.now → ⊥)
        (λ uri. (uri ≡ text.now) × IsUri text.now)) }
{
    match parse_uri(alloc, text) {
        Ok(uri) if uri.as_str() == text => Ok(Some(uri)),
        Ok(_) => Ok(None),
        Err(UriFault::NoMemory) => Err(NoMemory),
        Err(_) => Ok(None),
    }
}

/// The mark of the host of an address, which others may have too.
fn mark_of(text: &str) -> u32 {
    let name = match text.strip_prefix("https://") {
        Some(name) => name,
        None => text.strip_prefix("http://").unwrap_or(text),
    };
    let mut mark: u32 = 0;
    for byte in name.bytes() {
        if byte == b'/' {
            break;
        }
        mark = mark.rotate_left(5) ^ u32::from(byte);
    }
    mark.wrapping_mul(0x9E37_79B1)
}

/// The place of a mark, one of `PLACES`.
fn place_of(mark: u32) -> usize {
    (mark >> 22) as usize
}

/// A place for one host: the mark of the one that was met there last, and the one that is known.
#[derive(Drop)]
struct Place {
    met: u32,
    host: Option<Host>,
}

/// Hosts, each in the place of its mark, and the mark of the last one. A host is known from its second meeting on.
#[derive(Drop)]
pub struct Hosts {
    list: Vec<Place>,
    last: u32,
}

impl Hosts {
    /// No host. It takes no memory.
    pub fn new(alloc: Global) -> Self
        ensures list { result.list.items ≡ [] }
        ensures last { result.last ≡ 0 }
    {
        Hosts {
            list: Vec::new(alloc),
            last: 0,
        }
    }

    /// The known host in the place of a mark, where a text begins as its addresses do.
    fn at(&self, mark: u32, text: &str) -> Option<&Host> {
        match self.list.get(place_of(mark)) {
            Some(
                Place {
                    host: Some(host),
                    ..
                },
            ) if host.begins(text) => Some(host),
            _ => None,
        }
    }

    /// Turns to the host of an address.
    fn turn_to(&mut self, text: &str) {
        if self.at(self.last, text).is_none() {
            self.last = mark_of(text);
        }
    }

    /// Makes the places, once.
    fn make_places(&mut self) -> Result<(), AllocError> {
        if !self.list.is_empty() {
            return Ok(());
        }
        self.list.reserve_exact(PLACES)?;
        for _ in 0..PLACES {
            self.list.push(Place { met: 0, host: None })?;
        }
        Ok(())
    }

    /// Meets the host of an address, the one that was turned to. Where memory is refused it does not get known.
    fn meet(&mut self, alloc: Global, uri: &Uri)
        requires { IsUri uri.now }
    {
        if self.make_places().is_err() {
            return;
        }
        let mark = self.last;
        let Some(place) = self.list.get_mut(place_of(mark)) else {
            return;
        };
        if place.met != mark {
            place.met = mark;
            return;
        }
        if let Ok(host) = Host::of(alloc, uri) {
            place.host = Some(host);
        }
    }

    /// Reads and names an address as `named_uri` does, without a parse where its host is known and its path is plain.
    pub fn named(&mut self, alloc: Global, text: &str) -> Result<Option<Named>, NoMemory>
        ensures { IfOk result (λ found. MatchOption found (IsUri text.now → ⊥) (IsNamed text.now)) }
    {
        self.turn_to(text);
        if let Some(host) = self.at(self.last, text) {
            return host.named(alloc, text);
        }
        let found = named_uri(alloc, text)?;
        if let Some(named) = &found {
            self.meet(alloc, &named.uri);
        }
        Ok(found)
    }

    /// Reads an address that is in the form in which it is written, likewise.
    pub fn uri(&mut self, alloc: Global, text: &str) -> Result<Option<Uri>, NoMemory>
        ensures { IfOk result (λ found. MatchOption found (IsUri text.now → ⊥)
            (λ uri. (uri ≡ text.now) × IsUri text.now)) }
    {
        self.turn_to(text);
        match self.at(self.last, text) {
            Some(host) => match host.named(alloc, text)? {
                Some(named) => Ok(Some(named.uri)),
                None => Ok(None),
            },
            None => written_uri(alloc, text),
        }
    }
}
