// Addresses on their way through the crawl, and lists of them.
use crate::event::{Millis, Verdict};
use crate::list::Listed;
use crate::memory::{Copied, NoMemory};
use crate::text::{ClassKey, HopPath, Key, Uri};

/// An address with its key, its queue, the way to it, the page that names it and its rank: 0 a
/// prerequisite, 1 a redirect, 2 an embed, 3 all else.
#[derive(Drop)]
pub struct Item {
    pub key: Key,
    pub uri: Uri,
    pub class: ClassKey,
    pub path: HopPath,
    pub via: Option<Uri>,
    pub rank: u8,
}

/// A list of addresses.
pub type Uris = Listed<Uri>;

/// A list of items.
pub type Items = Listed<Item>;

/// An item that is handed out at a moment, with what may be done and which try it is, counted from 1.
#[derive(Drop)]
pub struct Work {
    pub item: Item,
    pub verdict: Verdict,
    pub at: Millis,
    pub tries: u32,
}

impl<T: Copied> Copied for Option<T> {
    fn copy(&self) -> Result<Self, NoMemory> {
        match self {
            None => Ok(None),
            Some(value) => Ok(Some(value.copy()?)),
        }
    }
}

impl Copied for Item {
    fn copy(&self) -> Result<Self, NoMemory> {
        Ok(Item {
            key: self.key.copy()?,
            uri: self.uri.copy()?,
            class: self.class.copy()?,
            path: self.path.copy()?,
            via: self.via.copy()?,
            rank: self.rank,
        })
    }
}

impl Copied for Work {
    fn copy(&self) -> Result<Self, NoMemory> {
        Ok(Work {
            item: self.item.copy()?,
            verdict: self.verdict,
            at: self.at,
            tries: self.tries,
        })
    }
}
