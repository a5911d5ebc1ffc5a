// Lists.
ghost use Rattle.std.specs.Prelude.{◌≡◌, ◌++◌, ◌∷◌, [], List, OnOk, OnErr};

use crate::{Mem, Twin};
use std::alloc::Global;
use std::marker::Model;

/// A list that grows at its end. Contracts see the list of the items.
#[derive(Drop)]
pub struct Listed<T> {
    list: Vec<T>,
}

impl<T> Model for Listed<T> {
    ghost Value = { List T };

    ghost view = { λ l. l.list.items };
}

impl<T> Listed<T> {
    /// The empty list, which takes no memory.
    pub fn new(alloc: Global) -> Listed<T>
        ensures empty { result ≡ [] }
    {
        Listed {
            list: Vec::new(alloc),
        }
    }

    /// The list of these items, which aren't copied.
    pub fn from_vec(list: Vec<T>) -> Listed<T>
        ensures items { result ≡ list.items }
    {
        Listed { list }
    }

    /// The items as a vector, which aren't copied.
    pub fn into_vec(self) -> Vec<T>
        ensures items { result.items ≡ self }
    {
        self.list
    }

    /// The items.
    pub fn as_slice(&self) -> &[T]
        ensures items { result.now ≡ self.now }
    {
        self.list.as_slice()
    }
}

impl<T: Twin> Clone for Listed<T> {
    ghost is_clone = { λ list copy. copy ≡ list };

    fn clone(&self) -> Result<Listed<T>, Mem> {
        let list = self.list.clone()?;
        Ok(Listed { list })
    }
}

impl<T: Twin> Twin for Listed<T> {
    ghost same = { λ list copy is. is };
}
