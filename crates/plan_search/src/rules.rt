//! Whether the five rules hold of a move.
ghost use Rattle.std.specs.Prelude.{◌↔◌, IsTrue};
ghost use Rattle.move_core.specs.Contexts.{IsNamed, IsResult, IsValidIn, rulebook};
ghost use Rattle.move_core.specs.Plans.{KeepsRules};

use conf_doc::Config;
use move_core::{Boxes, Ctx, Kit, Move};

/// Asks the rules: those that look at the move's table alone first, then the full one, and last the one that seldom
/// refuses what the full one lets pass.
pub(crate) fn keep_rules(
    ctx: &Ctx,
    kit: &mut Kit,
    cur: &Config,
    next: &Config,
    goal: &Config,
    mv: &Move,
) -> bool
    requires kinds { ⟦<Kit as Boxes>⟧.HasKinds kit.old }
    requires fits { ⟦<Kit as Boxes>⟧.IsFit kit.old ctx.now.models }
    requires named { IsNamed ctx.now }
    requires cur { IsValidIn ctx.now cur.now }
    requires next { IsResult cur.now mv.now next.now }
    ensures kinds { ⟦<Kit as Boxes>⟧.HasKinds kit.new }
    ensures fits { ⟦<Kit as Boxes>⟧.IsFit kit.new ctx.now.models }
    ensures keeps { IsTrue result ↔ KeepsRules (rulebook ctx.now) cur.now next.now mv.now }
{
    if !kit.allows_at(3, ctx, cur, next, goal, mv) {
        return false;
    }
    if !kit.allows_at(4, ctx, cur, next, goal, mv) {
        return false;
    }
    if !kit.allows_at(2, ctx, cur, next, goal, mv) {
        return false;
    }
    if !kit.allows_at(0, ctx, cur, next, goal, mv) {
        return false;
    }
    kit.allows_at(1, ctx, cur, next, goal, mv)
}
