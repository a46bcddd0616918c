//! The lines of a plan's steps.
ghost use Rattle.std.specs.Prelude.{◌≡◌, ◌≢◌, ◌++◌, ℕ, List, IfOk, MatchOption};
ghost use Rattle.move_core.specs.Operations.{number_text};
ghost use Rattle.plan_texts.specs.Moves.{IsStepIn};

use crate::moves::read_move;
use host_core::Memory;
use move_core::Move;
use std::alloc::Global;

/// What follows a number and a space.
fn after_number(alloc: Global, number: u32, line: &[u8]) -> Result<Option<&[u8]>, Memory>
    ensures { IfOk result (λ text.
        MatchOption text ((rest : List ℕ) → line.now ≢ number_text number ++ rest)
        (λ rest. line.now ≡ number_text number ++ rest.now)) }
{
    let begin = format!(in alloc; "{number} ")?;
    Ok(line.strip_prefix(begin.as_bytes()))
}

/// The move of a line without its line feed: its number, a space, and the text of its operation.
pub(crate) fn read_step(alloc: Global, number: u32, line: &[u8]) -> Result<Option<Move>, Memory>
    ensures { IfOk result (IsStepIn number line.now) }
{
    match after_number(alloc, number, line)? {
        Some(text) => read_move(alloc, text),
        None => Ok(None),
    }
}
