//! A stack.
ghost use Rattle.std.specs.Prelude.{◌≡◌, [], ◌∷◌, MatchOption, OnOk, OnErr};

use host_core::Memory;
use std::alloc::Global;
use std::marker::Model;

/// A stack. Contracts see the list of its items from the top.
#[derive(Drop)]
pub(crate) struct Stack<X> {
    items: Vec<X>,
}

impl<X> Model for Stack<X> {
    ghost use Rattle.std.specs.Prelude.{List, reverse};

    ghost Value = { List X };

    ghost view = { λ s. reverse s.items.items };
}

impl<X> Stack<X> {
    /// An empty stack, which takes no memory until it grows.
    pub(crate) fn new(alloc: Global) -> Self
        ensures { result ≡ [] }
    {
        Stack {
            items: Vec::new(alloc),
        }
    }

    /// A list from its first item.
    pub(crate) fn from_vec(items: Vec<X>) -> Self
        ensures { result ≡ items.items }
    {
        let mut items = items;
        items.reverse();
        Stack { items }
    }

    /// Takes the item at the top, or answers None where there is none.
    pub(crate) fn pop(&mut self) -> Option<X>
        ensures { MatchOption result
            ((self.old ≡ []) × (self.new ≡ []))
            (λ x. self.old ≡ x ∷ self.new) }
    {
        self.items.pop()
    }
}

impl<X: Drop> Stack<X> {
    /// Puts an item on the top. Without memory the stack stays as it was, and the item is dropped.
    pub(crate) fn push(&mut self, item: X) -> Result<(), Memory>
        ensures ok { OnOk result (self.new ≡ item ∷ self.old) }
        ensures err { OnErr result (self.new ≡ self.old) }
    {
        match self.items.push(item) {
            Ok(()) => Ok(()),
            Err(failed) => {
                drop(failed);
                Err(Memory)
            }
        }
    }
}
