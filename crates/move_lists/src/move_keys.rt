//! Moves as keys of a map.
ghost use Rattle.std.specs.Ordering.{eq_by_cmp};
ghost use Rattle.std.specs.Hash as fed;
ghost use Rattle.move_core.specs.ListedOrder.{move_cmp};
ghost use Rattle.move_lists.specs.MoveKeys.{hashed_name, keys_alike, keys_equiv, keys_per};

use move_core::Move;
use std::hash::{Hash, Hasher};
use std::marker::Model;

/// A move that is found by what it changes: only where moves change the same entry are their values compared.
#[derive(Drop)]
pub(crate) struct MoveKey {
    pub(crate) mv: Move,
}

impl Model for MoveKey {
    ghost use Rattle.move_core.specs.declared.moves.Move.{Move as Change};

    ghost Value = { Change };

    ghost view = { λ k. k.mv };

    ghost inverse = { λ m. record { mv = m } };
}

impl PartialEq for MoveKey {
    ghost eq = { eq_by_cmp move_cmp };

    ghost laws = { keys_per };

    fn eq(&self, other: &MoveKey) -> bool {
        self.mv.same(&other.mv)
    }
}

impl Eq for MoveKey {
    ghost laws = { keys_equiv };
}

impl Hash for MoveKey {
    ghost hash_input = { λ m. fed.str (hashed_name m) };

    ghost respects_eq = { keys_alike };

    fn hash<H: Hasher>(&self, state: &mut H) {
        let place = self.mv.place();
        let last = if place.len() < 2 { 0 } else { 1 };
        place.name_at(last).hash(state);
    }
}
