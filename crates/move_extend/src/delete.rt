//! The extender of deletes.
ghost use Rattle.std.specs.Prelude.{◌≡◌, ◌↔◌, IfOk, Some};
ghost use Rattle.move_core.specs.Extensions.{IsDelete};
ghost use Rattle.move_core.specs.declared.moves.Move.{Move as Change};

use crate::found::append_move;
use conf_doc::Config;
use host_core::Memory;
use move_core::{Ctx, Move, MoveExt};
use std::alloc::Global;

/// What a move would replace is removed.
#[derive(Drop)]
pub struct DeleteExt {}

impl DeleteExt {
    /// The extender, which keeps nothing.
    pub fn new() -> DeleteExt
        ensures { ⟦<DeleteExt as MoveExt>⟧.ext_kind result ≡ 2 }
    {
        DeleteExt {}
    }
}

impl MoveExt for DeleteExt {
    ghost ext_kind = { λ _. 2 };

    fn kind(&self) -> u32 {
        2
    }

    fn extend(
        &mut self,
        alloc: Global,
        _ctx: &Ctx,
        _cur: &Config,
        _goal: &Config,
        mv: &Move,
        out: &mut Vec<Move>,
    ) -> Result<(), Memory> {
        let delete = delete_of(alloc, mv)?;
        append_move(out, delete)
    }
}

/// The remove of what a move replaces.
fn delete_of(alloc: Global, mv: &Move) -> Result<Option<Move>, Memory>
    ensures { IfOk result (λ o. (x : Change) → IsDelete mv.now x ↔ (o ≡ Some x)) }
{
    match mv {
        Move::Replace(path, _) => Ok(Some(Move::Remove(path.copy(alloc)?))),
        _ => Ok(None),
    }
}
