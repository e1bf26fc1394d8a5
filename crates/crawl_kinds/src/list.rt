// A list that grows at its end. Contracts see the list; its capacity is no part of it.
ghost use Rattle.std.specs.Prelude.{◌≡◌, List, OnOk, OnErr, [], ◌∷◌, ◌++◌};

use crate::memory::{Copied, NoMemory};
use std::alloc::Global;
use std::marker::Model;

/// A list of values. Contracts see the list.
#[derive(Drop)]
pub struct Listed<T> {
    list: Vec<T>,
}

impl<T> Model for Listed<T> {
    ghost Value = { List T };

    ghost view = { λ a. a.list.items };
}

impl<T> Listed<T> {
    /// The empty list, which takes no memory.
    pub fn new(alloc: Global) -> Self
        ensures { result ≡ [] }
    {
        Listed {
            list: Vec::new(alloc),
        }
    }

    pub fn as_slice(&self) -> &[T]
        ensures { result.now ≡ self.now }
    {
        self.list.as_slice()
    }

    /// The values themselves. It takes no memory.
    pub fn into_vec(self) -> Vec<T>
        ensures { result.items ≡ self }
    {
        self.list
    }
}

impl<T: Drop> Listed<T> {
    /// Puts a value at the end. For want of memory the list stays as it was.
    pub fn push(&mut self, item: T) -> Result<(), NoMemory>
        ensures ok { OnOk result (self.new ≡ self.old ++ item ∷ []) }
        ensures err { OnErr result (self.new ≡ self.old) }
    {
        self.list.push(item)?;
        Ok(())
    }
}

/// A list of the values of a `Vec`, which takes no memory.
impl<T> From<Vec<T>> for Listed<T> {
    ghost from_gives = { λ list own. own ≡ list.items };

    fn from(list: Vec<T>) -> Self {
        Listed { list }
    }
}

impl<T: Copied + Drop> Copied for Listed<T> {
    fn copy(&self) -> Result<Self, NoMemory> {
        let mut copied = Listed::new(*self.list.allocator());
        for item in &self.list {
            copied.push(item.copy()?)?;
        }
        Ok(copied)
    }
}
