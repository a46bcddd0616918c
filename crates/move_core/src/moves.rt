//! Moves: a part of a configuration added, removed or replaced at a place, or an item of a list added or removed.
ghost use Rattle.std.specs.Prelude.{◌≡◌, ◌↔◌, IfOk, IsTrue};
ghost use Rattle.std.specs.Option.{option_copied};
ghost use Rattle.move_core.specs.Moves.{index, new_part, new_text, place};
ghost use Rattle.move_core.specs.Services.{table_of};

use conf_doc::{Part, Path};
use host_core::{Memory, Sequence, Txt};
use std::alloc::Global;

/// A change at one place of a configuration. The path of an item's move is that of the field that holds its list; the
/// item goes in before the one at its index, counted from 0, or it is the one there that goes.
#[derive(Drop)]
pub enum Move {
    Add(Path, Part),
    Remove(Path),
    Replace(Path, Part),
    AddItem(Path, usize, Txt),
    RemoveItem(Path, usize),
}

/// Moves in order.
pub type Moves = Sequence<Move>;

/// The steps of a plan in order.
pub type Plan = Sequence<Move>;

/// A move, the place that it is for, and its class: 0 for a table, 1 for a key, 2 for an item, 3 for a field, 4 for a
/// seed.
#[derive(Drop)]
pub struct Generated {
    pub mv: Move,
    pub place: Path,
    pub class: u8,
}

/// A listed move and its rank: its tier, the number of extensions and its class.
#[derive(Drop)]
pub struct Ranked {
    pub tier: u8,
    pub depth: usize,
    pub class: u8,
    pub mv: Move,
}

impl Move {
    /// The place that changes, of an item's move the field.
    pub fn place(&self) -> &Path
        ensures { result.now ≡ place self.now }
    {
        match self {
            Move::Add(path, _) => path,
            Move::Remove(path) => path,
            Move::Replace(path, _) => path,
            Move::AddItem(path, _, _) => path,
            Move::RemoveItem(path, _) => path,
        }
    }

    /// The name of the table that changes.
    pub fn table(&self) -> &str
        ensures { result.now ≡ table_of (place self.now) }
    {
        let place = self.place();
        let _names = place.len();
        place.name_at(0)
    }

    /// The index of the item, of an item's move.
    pub fn index(&self) -> Option<usize>
        ensures { result ≡ index self.now }
    {
        match self {
            Move::AddItem(_, index, _) => Some(*index),
            Move::RemoveItem(_, index) => Some(*index),
            _ => None,
        }
    }

    /// The part that is put at the place, or None where none is: of a remove and of an item's move.
    pub fn new_part(&self) -> Option<&Part>
        ensures { option_copied result ≡ new_part self.now }
    {
        match self {
            Move::Add(_, part) => Some(part),
            Move::Remove(_) => None,
            Move::Replace(_, part) => Some(part),
            Move::AddItem(..) => None,
            Move::RemoveItem(..) => None,
        }
    }

    /// The text of the item, of one that is added.
    pub fn new_text(&self) -> Option<&str>
        ensures { option_copied result ≡ new_text self.now }
    {
        match self {
            Move::AddItem(_, _, text) => Some(text.as_str()),
            _ => None,
        }
    }

    /// Whether the moves are the same.
    pub fn same(&self, other: &Move) -> bool
        ensures { IsTrue result ↔ (self.now ≡ other.now) }
    {
        match (self, other) {
            (Move::Add(path, part), Move::Add(place, new)) => path.same(place) && part.same(new),
            (Move::Remove(path), Move::Remove(place)) => path.same(place),
            (Move::Replace(path, part), Move::Replace(place, new)) => {
                path.same(place) && part.same(new)
            }
            (Move::AddItem(path, i, text), Move::AddItem(place, j, new)) => {
                i == j && path.same(place) && text.as_str() == new.as_str()
            }
            (Move::RemoveItem(path, i), Move::RemoveItem(place, j)) => i == j && path.same(place),
            _ => false,
        }
    }

    /// The same move.
    pub fn copy(&self, alloc: Global) -> Result<Move, Memory>
        ensures { IfOk result (λ m. m ≡ self.now) }
    {
        match self {
            Move::Add(path, part) => Ok(Move::Add(path.copy(alloc)?, part.copy(alloc)?)),
            Move::Remove(path) => Ok(Move::Remove(path.copy(alloc)?)),
            Move::Replace(path, part) => Ok(Move::Replace(path.copy(alloc)?, part.copy(alloc)?)),
            Move::AddItem(path, i, text) => {
                Ok(Move::AddItem(path.copy(alloc)?, *i, text.copy(alloc)?))
            }
            Move::RemoveItem(path, i) => Ok(Move::RemoveItem(path.copy(alloc)?, *i)),
        }
    }
}
