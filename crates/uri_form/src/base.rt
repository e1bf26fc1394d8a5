// Addresses that texts are joined to.
ghost use Rattle.std.specs.Prelude.{◌≡◌, ◌<◌, length, Err, IfOk};
ghost use Rattle.crawl_kinds.specs.Address.{IsUri};
ghost use Rattle.uri_form.specs.Fault.{Answers, address_in, joined_url, most_text};

use crate::fault::{UriFault, fault_of_parse};
use crate::parse::{MOST_TEXT, address_of};
use crate::reading::url_of;
use crawl_kinds::{NoMemory, Uri};
use std::alloc::Global;
use std::marker::Model;
use url::Url;

/// An address that is read once, for many texts that are joined to it. Contracts see the address.
#[derive(Drop)]
pub struct Base {
    url: Url,
}

impl Model for Base {
    ghost use Rattle.std.specs.Prelude.{List, ℕ};
    ghost use Rattle.crawl_kinds.specs.Address.{IsUriOf};
    ghost use Rattle.url.specs.Parts.{serialize};

    ghost Value = { List ℕ };

    ghost view = { λ a. serialize a.url };

    ghost invariant = { λ a. IsUriOf (serialize a.url) a.url };
}

impl Base {
    /// Reads an address as a base. It fails for want of memory alone.
    pub fn of(alloc: Global, uri: &Uri) -> Result<Self, NoMemory>
        requires { IsUri uri.now }
        ensures { IfOk result (λ base. base ≡ uri.now) }
    {
        let url = url_of(alloc, uri)?;
        Ok(Base { url })
    }

    /// Reads a text as an address against this one, as a reference on its page is read (URL Standard section 4.4). It answers
    /// what `join_uri` answers, and does not read the base again.
    pub fn join(&self, alloc: Global, text: &str) -> Result<Uri, UriFault>
        ensures answer { Answers result (address_in text.now (joined_url self.now text.now)) }
        ensures long { most_text < length text.now → result ≡ Err (UriFault.TooLong (length text.now)) }
        ensures address { IfOk result IsUri }
    {
        if text.len() > MOST_TEXT {
            return Err(UriFault::TooLong { len: text.len() });
        }
        match self.url.join(text) {
            Ok(url) => address_of(alloc, &url),
            Err(refusal) => Err(fault_of_parse(refusal)),
        }
    }
}
