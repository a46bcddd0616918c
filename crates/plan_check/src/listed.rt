//! Whether a move is listed: it is generated, or follows one that is. Those that lead to it are looked for
//! backwards, round by round.
ghost use Rattle.std.specs.Prelude.{◌≡◌, ◌↔◌, [], ◌∷◌, IfOk, IsTrue};
ghost use Rattle.std.specs.List.{Contains};
ghost use Rattle.move_core.specs.Contexts.{IsNamed, rulebook};
ghost use Rattle.move_core.specs.Listed.{IsListed};
ghost use Rattle.plan_check.specs.Backwards.{JoinsOrBegins, Leads, LeadsAs, LeadsOf, RoundOrBegins};
ghost use Rattle.plan_check.specs.Nearby.{AreWanted, KnowsGoal};

use crate::follows::{follows, is_as_in_goal};
use crate::generated::is_generated;
use crate::here::Here;
use crate::preceding::{Sought, preceding_moves};
use crate::steps::is_defined;
use crate::wants::wants_at;
use conf_doc::Config;
use host_core::Memory;
use move_core::{Ctx, Move};
use std::alloc::Global;

/// Whether a move is one of some moves.
fn has_move(moves: &[Move], mv: &Move) -> bool
    ensures { IsTrue result ↔ Contains moves.now mv.now }
{
    moves.iter().any(|other| other.same(mv))
}

/// Whether a move is defined, and the sought one follows it.
fn leads_to(alloc: Global, sought: &Sought, mv: &Move) -> Result<bool, Memory>
    requires wants { AreWanted sought.now }
    requires goals { KnowsGoal sought.now }
    ensures { let s = sought.now in
        IfOk result (λ b. IsTrue b ↔ Leads s.here.now mv.now s.mv.now) }
{
    if !is_defined(sought.here.cur, mv) {
        return Ok(false);
    }
    follows(alloc, sought, mv)
}

/// Whether the sought move follows one that is generated. One that it follows and that isn't is put at the end,
/// unless it is there.
fn join(alloc: Global, sought: &Sought, mv: &Move, found: &mut Vec<Move>) -> Result<bool, Memory>
    requires wants { AreWanted sought.now }
    requires goals { KnowsGoal sought.now }
    ensures { let s = sought.now in let Is = LeadsAs s.here.now mv.now s.mv.now in
        IfOk result (JoinsOrBegins s.here.now s.mv.now Is found.old.items found.new.items) }
{
    let leads = leads_to(alloc, sought, mv)?;
    if !leads {
        return Ok(false);
    }
    if has_move(found, mv) {
        return Ok(false);
    }
    let generated = is_generated(alloc, sought.here, mv)?;
    if generated {
        return Ok(true);
    }
    let copy = mv.copy(alloc)?;
    found.push(copy)?;
    Ok(false)
}

/// The same of some moves.
fn join_all(
    alloc: Global,
    sought: &Sought,
    moves: &[Move],
    found: &mut Vec<Move>,
) -> Result<bool, Memory>
    requires wants { AreWanted sought.now }
    requires goals { KnowsGoal sought.now }
    ensures { let s = sought.now in let Is = LeadsOf s.here.now moves.now s.mv.now in
        IfOk result (JoinsOrBegins s.here.now s.mv.now Is found.old.items found.new.items) }
{
    for mv in moves {
        let begins = join(alloc, sought, mv, found)?;
        if begins {
            return Ok(true);
        }
    }
    Ok(false)
}

/// The same of all that may precede a move.
fn join_preceding<'a>(
    alloc: Global,
    here: &'a Here<'a>,
    mv: &'a Move,
    found: &mut Vec<Move>,
) -> Result<bool, Memory>
    requires { IsNamed here.now.ctx.now }
    ensures { let Is = RoundOrBegins here.now mv.now in
        IfOk result (Is found.old.items found.new.items) }
{
    let wants = wants_at(alloc, &here.ctx.models, here.cur, mv.place())?;
    let sought = Sought {
        here,
        mv,
        wants: &wants,
        is_goals: is_as_in_goal(here.goal, mv),
    };
    let moves = preceding_moves(alloc, &sought)?;
    join_all(alloc, &sought, &moves, found)
}

/// A move alone.
fn begin(alloc: Global, mv: &Move) -> Result<Vec<Move>, Memory>
    ensures { IfOk result (λ v. v.items ≡ mv.now ∷ []) }
{
    let mut found = Vec::new(alloc);
    let copy = mv.copy(alloc)?;
    found.push(copy)?;
    Ok(found)
}

/// Whether a move is listed.
pub(crate) fn is_listed(
    alloc: Global,
    ctx: &Ctx,
    cur: &Config,
    goal: &Config,
    mv: &Move,
) -> Result<bool, Memory>
    requires { IsNamed ctx.now }
    ensures { let Is = IsListed (rulebook ctx.now) cur.now goal.now mv.now in
        IfOk result (λ b. IsTrue b ↔ Is) }
{
    let here = Here { ctx, cur, goal };
    let generated = is_generated(alloc, &here, mv)?;
    if generated {
        return Ok(true);
    }
    let mut found = begin(alloc, mv)?;
    let mut next = 0;
    while next < found.len() {
        let alone = begin(alloc, &found[next])?;
        let more = &alone[0];
        let begins = join_preceding(alloc, &here, more, &mut found)?;
        if begins {
            return Ok(true);
        }
        next += 1;
    }
    Ok(false)
}
