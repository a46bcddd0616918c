//! The extender of the place above.
ghost use Rattle.std.specs.Prelude.{◌≡◌, option_map, IfOk};
ghost use Rattle.move_core.specs.Extensions.{as_in_goal, upper, upper_place};

use crate::found::append_move;
use conf_doc::{Config, Path};
use host_core::Memory;
use move_core::{Ctx, Move, MoveExt};
use std::alloc::Global;

/// The place one name shorter becomes as in goal, where the move's place is an entry or a field.
#[derive(Drop)]
pub struct UpperExt {}

impl UpperExt {
    /// The extender, which keeps nothing.
    pub fn new() -> UpperExt
        ensures { ⟦<UpperExt as MoveExt>⟧.ext_kind result ≡ 1 }
    {
        UpperExt {}
    }
}

impl MoveExt for UpperExt {
    ghost ext_kind = { λ _. 1 };

    fn kind(&self) -> u32 {
        1
    }

    fn extend(
        &mut self,
        alloc: Global,
        _ctx: &Ctx,
        _cur: &Config,
        goal: &Config,
        mv: &Move,
        out: &mut Vec<Move>,
    ) -> Result<(), Memory> {
        let upper = upper_of(alloc, goal, mv)?;
        append_move(out, upper)
    }
}

/// The place one name shorter, of a place of two or three names.
fn shorter(alloc: Global, place: &Path) -> Result<Option<Path>, Memory>
    ensures { IfOk result (λ p. p ≡ upper place.now) }
{
    match place.len() {
        2 => Ok(Some(Path::new(alloc, &[place.name_at(0)])?)),
        3 => Ok(Some(Path::new(alloc, &[place.name_at(0), place.name_at(1)])?)),
        _ => Ok(None),
    }
}

/// The place one name shorter than the one that a move's operation names: of an item the field.
fn upper_place(alloc: Global, mv: &Move) -> Result<Option<Path>, Memory>
    ensures { IfOk result (λ p. p ≡ upper_place mv.now) }
{
    match mv {
        Move::Add(place, _) => shorter(alloc, place),
        Move::Remove(place) => shorter(alloc, place),
        Move::Replace(place, _) => shorter(alloc, place),
        Move::AddItem(place, _, _) => Ok(Some(place.copy(alloc)?)),
        Move::RemoveItem(place, _) => Ok(Some(place.copy(alloc)?)),
    }
}

/// The place becomes as in goal: its part there, or nothing where goal lacks it.
fn as_in_goal(alloc: Global, goal: &Config, place: Path) -> Result<Move, Memory>
    ensures { IfOk result (λ m. m ≡ as_in_goal goal.now place) }
{
    match goal.copy_at(alloc, &place)? {
        Some(part) => Ok(Move::Replace(place, part)),
        None => Ok(Move::Remove(place)),
    }
}

/// The place above a move's becomes as in goal.
fn upper_of(alloc: Global, goal: &Config, mv: &Move) -> Result<Option<Move>, Memory>
    ensures { IfOk result (λ o. o ≡ option_map (as_in_goal goal.now) (upper_place mv.now)) }
{
    match upper_place(alloc, mv)? {
        Some(place) => Ok(Some(as_in_goal(alloc, goal, place)?)),
        None => Ok(None),
    }
}
