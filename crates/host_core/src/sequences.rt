//! The list that stands in public types in the place of a vector.
ghost use Rattle.std.specs.Prelude.{◌≡◌, ◌↔◌, ◌<◌, IsTrue, [], ◌∷◌, ◌++◌, length, slice_index_or, slice_get, Some, OnOk, OnErr};

use crate::Memory;
use std::alloc::Global;
use std::marker::Model;

/// A list. Contracts see it as the list of its items, whatever memory it has.
#[derive(Debug, Drop)]
pub struct Sequence<X> {
    items: Vec<X>,
}

impl<X> Model for Sequence<X> {
    ghost use Rattle.std.specs.Prelude.{List};

    ghost Value = { List X };

    ghost view = { λ s. s.items.items };
}

impl<X> Sequence<X> {
    /// An empty list, which takes no memory until it grows.
    pub fn new(alloc: Global) -> Self
        ensures { result ≡ [] }
    {
        Sequence {
            items: Vec::new(alloc),
        }
    }

    /// How many items there are.
    pub fn len(&self) -> usize
        ensures { result ≡ length self.now }
    {
        self.items.len()
    }

    /// Whether there is none.
    pub fn is_empty(&self) -> bool
        ensures { IsTrue result ↔ (self.now ≡ []) }
    {
        self.items.is_empty()
    }

    /// The whole list.
    pub fn items(&self) -> &[X]
        ensures { result.now ≡ self.now }
    {
        self.items.as_slice()
    }

    /// The item at a place, counted from 0.
    pub fn at(&self, i: usize) -> &X
        requires { i < length self.now }
        ensures { slice_get self.now i ≡ Some result.now }
    {
        &self.items[i]
    }

    /// The list of a vector's items, with no copy.
    pub fn from_vec(items: Vec<X>) -> Self
        ensures { result ≡ items.items }
    {
        Sequence { items }
    }

    /// The vector of the items, with no copy.
    pub fn into_vec(self) -> Vec<X>
        ensures { result.items ≡ self }
    {
        let Sequence { items } = self;
        items
    }
}

impl<X: Drop> Sequence<X> {
    /// Adds an item at the end. Without memory the list stays as it was, and the item is dropped.
    pub fn push(&mut self, item: X) -> Result<(), Memory>
        ensures ok { OnOk result (self.new ≡ self.old ++ item ∷ []) }
        ensures err { OnErr result (self.new ≡ self.old) }
    {
        self.items.push(item)?;
        Ok(())
    }
}
