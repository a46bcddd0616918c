//! Moves that are found one after another, each once.
ghost use Rattle.std.specs.Prelude.{◌≡◌, ◌↔◌, ◌++◌, IsTrue, OnErr, OnOk};
ghost use Rattle.std.specs.List.{Contains};
ghost use Rattle.std.specs.Option.{option_to_list};
ghost use Rattle.move_extend.specs.Found.{Finds};

use host_core::Memory;
use move_core::{Move, Moves};

/// Whether the move is one of them.
fn has_move(moves: &[Move], mv: &Move) -> bool
    ensures { IsTrue result ↔ Contains moves.now mv.now }
{
    moves.iter().any(|other| other.same(mv))
}

/// Adds a move to those found, unless it is one of them.
pub(crate) fn add_move(found: &mut Moves, mv: Move) -> Result<(), Memory>
    ensures { OnOk result (Finds (λ x. x ≡ mv) found.old found.new) }
{
    if has_move(found.items(), &mv) {
        return Ok(());
    }
    found.push(mv)
}

/// Puts a move at the end of a list, where there is one.
pub(crate) fn append_move(out: &mut Vec<Move>, mv: Option<Move>) -> Result<(), Memory>
    ensures ok { OnOk result (out.new.items ≡ out.old.items ++ option_to_list mv) }
    ensures err { OnErr result (out.new.items ≡ out.old.items) }
{
    if let Some(mv) = mv {
        out.push(mv)?;
    }
    Ok(())
}

/// Puts moves at the end of a list.
pub(crate) fn append_moves(out: &mut Vec<Move>, found: Moves) -> Result<(), Memory>
    ensures ok { OnOk result (out.new.items ≡ out.old.items ++ found) }
    ensures err { OnErr result (out.new.items ≡ out.old.items) }
{
    let mut moves = found.into_vec();
    out.append(&mut moves)?;
    Ok(())
}
