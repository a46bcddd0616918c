//! Type statements in a list, found by where they stand in the texts. What is found so is looked at before
//! anything is made of it: that two statements don't stand at one position is nowhere relied on.
ghost use Rattle.std.specs.Prelude.{◌≡◌, IsTrue, [], ◌∷◌, ◌++◌, map, Contains, IfOk, OnErr};
ghost use Rattle.yang_values.specs.Walks.{placed};

use crate::circles::is_same;
use crate::walks::Place;
use host_core::Memory;
use std::alloc::Global;
use std::collections::BTreeMap;

/// Where a type statement stands: the number of its module, and where its keyword begins in the text.
#[derive(Clone, Copy, PartialEq, Eq, PartialOrd, Ord)]
struct Position {
    number: usize,
    start: u64,
}

fn position_of(place: &Place) -> Position {
    Position {
        number: place.number,
        start: place.statement.start,
    }
}

/// Numbers of type statements, by where these stand.
#[derive(Drop)]
pub(crate) struct Numbers {
    numbers: BTreeMap<Position, usize>,
}

impl Numbers {
    /// No numbers.
    pub(crate) fn new(alloc: Global) -> Numbers {
        Numbers {
            numbers: BTreeMap::new(alloc),
        }
    }

    /// The number that was put last where a type statement stands.
    pub(crate) fn get(&self, place: &Place) -> Option<usize> {
        self.numbers.get(&position_of(place)).copied()
    }

    /// Puts a number.
    pub(crate) fn put(&mut self, place: &Place, number: usize) -> Result<(), Memory> {
        self.numbers.insert(position_of(place), number)?;
        Ok(())
    }
}

/// Type statements in a list.
#[derive(Drop)]
pub(crate) struct Places<'a> {
    pub(crate) items: Vec<Place<'a>>,
    numbers: Numbers,
}

/// Whether a type statement is at an index of some.
fn is_at(places: &[Place], index: Option<usize>, place: &Place) -> bool
    ensures { IsTrue result → Contains (map placed places.now) (placed place.now) }
{
    match index {
        Some(i) => i < places.len() && is_same(&places[i], place),
        None => false,
    }
}

impl<'a> Places<'a> {
    /// None.
    pub(crate) fn new(alloc: Global) -> Places<'a>
        ensures { result.items.items ≡ [] }
    {
        Places {
            items: Vec::new(alloc),
            numbers: Numbers::new(alloc),
        }
    }

    /// Whether it is found that a type statement is among them.
    pub(crate) fn has(&self, place: &Place) -> bool
        ensures { IsTrue result → Contains (map placed self.now.items.items) (placed place.now) }
    {
        is_at(self.items.as_slice(), self.numbers.get(place), place)
    }

    /// Adds a type statement.
    pub(crate) fn push(&mut self, place: &Place<'a>) -> Result<(), Memory>
        ensures more { IfOk result (λ _. self.new.items.items
            ≡ self.old.items.items ++ place.now ∷ []) }
        ensures kept { OnErr result (self.new.items.items ≡ self.old.items.items) }
    {
        let number = self.items.len();
        self.numbers.put(place, number)?;
        self.items.push(*place)?;
        Ok(())
    }
}
