//! Moves put at the end of those that were generated.
ghost use Rattle.std.specs.Prelude.{◌≡◌};
ghost use Rattle.move_gen.specs.Given.{move_for, own_move};
ghost use Rattle.move_gen.specs.Giving.{Gives};

use conf_doc::Path;
use host_core::Memory;
use move_core::{Generated, Move};
use std::alloc::Global;

/// The class of moves of tables.
pub(crate) const TABLE_CLASS: u8 = 0;

/// The class of moves of whole entries.
pub(crate) const KEY_CLASS: u8 = 1;

/// The class of moves of items.
pub(crate) const ITEM_CLASS: u8 = 2;

/// The class of moves of fields.
pub(crate) const FIELD_CLASS: u8 = 3;

/// The class of seeds.
pub(crate) const SEED_CLASS: u8 = 4;

/// Puts a move for a place.
pub(crate) fn give(mv: Move, place: Path, class: u8, out: &mut Vec<Generated>) -> Result<(), Memory>
    ensures { Gives (λ g. g ≡ move_for mv place class) result out.old.items out.new.items }
{
    out.push(Generated { mv, place, class })?;
    Ok(())
}

/// Puts a move for its own place.
pub(crate) fn give_own(
    alloc: Global,
    mv: Move,
    class: u8,
    out: &mut Vec<Generated>,
) -> Result<(), Memory>
    ensures { Gives (λ g. g ≡ own_move mv class) result out.old.items out.new.items }
{
    let place = mv.place().copy(alloc)?;
    give(mv, place, class, out)
}
