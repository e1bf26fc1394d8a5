// What was read before and is often met again.
ghost use Rattle.std.specs.Prelude.{◌≡◌, [], IfOk};
ghost use Rattle.journal_valid.specs.Items.{IsAddress};

use crate::hosts::Hosts;
use crawl_kinds::{Copied, NoMemory, Uri};
use std::alloc::Global;
use std::marker::Model;

/// The page of a finish, which names the items that it adds. Contracts see its address.
#[derive(Drop)]
pub struct Page {
    uri: Uri,
}

impl Model for Page {
    ghost use Rattle.std.specs.Prelude.{List, ℕ};
    ghost use Rattle.journal_valid.specs.Items.{IsAddress};

    ghost Value = { List ℕ };

    ghost view = { λ a. a.uri };

    ghost invariant = { λ a. IsAddress a.uri };
}

impl Page {
    /// The page of an address.
    pub fn of(uri: &Uri) -> Result<Self, NoMemory>
        requires { IsAddress uri.now }
        ensures { IfOk result (λ page. page ≡ uri.now) }
    {
        Ok(Page { uri: uri.copy()? })
    }

    /// Its address.
    pub fn uri(&self) -> &Uri
        ensures same { result.now ≡ self.now }
        ensures address { IsAddress self.now }
    {
        &self.uri
    }
}

/// The page of the last finish, and the hosts of items.
#[derive(Drop)]
pub struct Recent {
    pub page: Option<Page>,
    pub hosts: Hosts,
}

impl Recent {
    /// Nothing was read. It takes no memory.
    pub fn new(alloc: Global) -> Self
        ensures page { result.page ≡ None }
        ensures hosts { result.hosts.list.items ≡ [] }
        ensures last { result.hosts.last ≡ 0 }
    {
        Recent {
            page: None,
            hosts: Hosts::new(alloc),
        }
    }
}
