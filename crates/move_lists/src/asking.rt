//! What the boxes of a kit give at a configuration: the generated moves, and the extensions of a move.
ghost use Rattle.std.specs.Prelude.{◌≡◌, ◌⊎◌, All, IfOk, IsTrue};
ghost use Rattle.std.specs.List.{Contains};
ghost use Rattle.move_core.specs.Extensions.{IsUpper};
ghost use Rattle.move_core.specs.Moves.{IsDefined};
ghost use Rattle.move_core.specs.declared.moves.Generated.{Generated as Offer};
ghost use Rattle.move_core.specs.declared.moves.Move.{Move as Change};
ghost use Rattle.move_lists.specs.Questions.{CanAsk, FollowsIn, IsOffered};

use conf_doc::Config;
use host_core::Memory;
use move_core::{Boxes, Ctx, Generated, Kit, Move};
use std::alloc::Global;

/// What is asked of a kit: moves by a context, at a configuration, towards another. Where they began tells which
/// of them are restoring.
#[derive(Clone, Copy)]
pub(crate) struct Question<'a> {
    pub(crate) ctx: &'a Ctx,
    pub(crate) start: &'a Config,
    pub(crate) cur: &'a Config,
    pub(crate) goal: &'a Config,
}

/// The generated moves, those of each generator before the next one's.
pub(crate) fn generated_moves(
    alloc: Global,
    question: &Question<'_>,
    kit: &mut Kit,
) -> Result<Vec<Generated>, Memory>
    requires kinds { ⟦<Kit as Boxes>⟧.HasKinds kit.old }
    requires asked { CanAsk question.now }
    ensures kinds { ⟦<Kit as Boxes>⟧.HasKinds kit.new }
    ensures rules { kit.new.rules ≡ kit.old.rules }
    ensures each { IfOk result (λ gs. All (IsOffered question.now) gs.items) }
    ensures all { IfOk result (λ gs.
        (g : Offer) → IsOffered question.now g → Contains gs.items g) }
{
    let Question { ctx, cur, goal, .. } = *question;
    let mut out = Vec::new(alloc);
    kit.moves_at(alloc, 0, ctx, cur, goal, &mut out)?;
    kit.moves_at(alloc, 1, ctx, cur, goal, &mut out)?;
    kit.moves_at(alloc, 2, ctx, cur, goal, &mut out)?;
    kit.moves_at(alloc, 3, ctx, cur, goal, &mut out)?;
    kit.moves_at(alloc, 4, ctx, cur, goal, &mut out)?;
    Ok(out)
}

/// The place above a move's as it is in goal, where there is one, or nothing where that move is known already.
fn above_moves(
    alloc: Global,
    question: &Question<'_>,
    kit: &mut Kit,
    mv: &Move,
    is_known: bool,
) -> Result<Vec<Move>, Memory>
    requires kinds { ⟦<Kit as Boxes>⟧.HasKinds kit.old }
    requires asked { CanAsk question.now }
    requires defined { IsDefined question.now.cur.now mv.now }
    ensures kinds { ⟦<Kit as Boxes>⟧.HasKinds kit.new }
    ensures rules { kit.new.rules ≡ kit.old.rules }
    ensures each { IfOk result (λ ms. All (FollowsIn question.now mv.now) ms.items) }
    ensures all { IfOk result (λ ms. (m : Change) →
        IsUpper question.now.goal.now mv.now m → IsTrue is_known ⊎ Contains ms.items m) }
{
    let Question { ctx, cur, goal, .. } = *question;
    let mut out = Vec::new(alloc);
    if is_known {
        return Ok(out);
    }
    kit.extend_at(alloc, 0, ctx, cur, goal, mv, &mut out)?;
    Ok(out)
}

/// The extensions of a move, those of each extender before the next one's. What the place above becomes is
/// left out where that is known.
pub(crate) fn extended_moves(
    alloc: Global,
    question: &Question<'_>,
    kit: &mut Kit,
    mv: &Move,
    is_above_known: bool,
) -> Result<Vec<Move>, Memory>
    requires kinds { ⟦<Kit as Boxes>⟧.HasKinds kit.old }
    requires asked { CanAsk question.now }
    requires defined { IsDefined question.now.cur.now mv.now }
    ensures kinds { ⟦<Kit as Boxes>⟧.HasKinds kit.new }
    ensures rules { kit.new.rules ≡ kit.old.rules }
    ensures each { IfOk result (λ ms. All (FollowsIn question.now mv.now) ms.items) }
    ensures all { IfOk result (λ ms. (m : Change) → FollowsIn question.now mv.now m →
        (IsTrue is_above_known × IsUpper question.now.goal.now mv.now m) ⊎ Contains ms.items m) }
{
    let mut out = above_moves(alloc, question, kit, mv, is_above_known)?;
    let Question { ctx, cur, goal, .. } = *question;
    kit.extend_at(alloc, 1, ctx, cur, goal, mv, &mut out)?;
    kit.extend_at(alloc, 2, ctx, cur, goal, mv, &mut out)?;
    kit.extend_at(alloc, 3, ctx, cur, goal, mv, &mut out)?;
    Ok(out)
}
