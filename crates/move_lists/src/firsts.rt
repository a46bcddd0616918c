//! The generated moves at a configuration, each with whether it is restoring.
ghost use Rattle.std.specs.Prelude.{◌≡◌, ◌↔◌, All, IfOk, IsTrue};
ghost use Rattle.move_core.specs.Contexts.{rulebook};
ghost use Rattle.move_core.specs.Generated.{IsRestoring};
ghost use Rattle.move_lists.specs.Firsts.{AreFirstsOf, IsTold, LeavesGoals, generated_of};
ghost use Rattle.move_lists.specs.Offers.{AreOffersOf};

use crate::agreeing::{agree_at, agree_at_entry, has_value};
use crate::offers::Offers;
use conf_doc::Config;
use host_core::Memory;
use move_core::{Ctx, Generated};
use std::alloc::Global;
use std::marker::Model;

/// A generated move, and whether it is restoring.
#[derive(Drop)]
pub(crate) struct First {
    pub(crate) generated: Generated,
    pub(crate) is_restoring: bool,
}

/// The generated moves at a configuration, each with whether it is restoring. All parts of the list there begin
/// with them. Contracts see the list of them.
#[derive(Drop)]
pub struct Firsts {
    firsts: Vec<First>,
}

impl Model for Firsts {
    ghost use Rattle.std.specs.Prelude.{List};
    ghost use Rattle.move_lists.specs.declared.firsts.First.{First as Told};

    ghost Value = { List Told };

    ghost view = { λ fs. fs.firsts.items };
}

impl Firsts {
    /// Each of them.
    pub(crate) fn items(&self) -> &[First]
        ensures { result.now ≡ self.now }
    {
        &self.firsts
    }
}

/// The generated moves at a configuration, each with whether it is restoring: whether start and goal agree at its place.
/// The context and the configuration are there for the contract alone.
pub fn first_moves(
    alloc: Global,
    ctx: &Ctx,
    start: &Config,
    cur: &Config,
    goal: &Config,
    offers: Offers,
) -> Result<Firsts, Memory>
    requires offers { AreOffersOf (rulebook ctx.now) cur.now goal.now offers }
    ensures firsts { IfOk result (AreFirstsOf (rulebook ctx.now) start.now cur.now goal.now) }
{
    let _ = ctx;
    let _ = cur;
    let firsts = tell_restoring(alloc, start, goal, offers.into_moves())?;
    Ok(Firsts { firsts })
}

/// Whether a generated move is restoring. What it leaves tells of goal, unless it is an item's: at a field it is what
/// goal has there, and start alone is looked at; at an entry it tells whether goal has one, and goal is looked at only
/// where start has one too.
pub(crate) fn is_restoring(start: &Config, goal: &Config, generated: &Generated) -> bool
    requires { LeavesGoals goal.now generated.now }
    ensures { IsTrue result ↔ IsRestoring start.now goal.now generated.now }
{
    let place = &generated.place;
    if generated.mv.index().is_some() {
        return agree_at(start, goal, place);
    }
    let part = generated.mv.new_part();
    match place.len() {
        2 => agree_at_entry(start, goal, place, part.is_some()),
        3 => has_value(start, place, part),
        _ => agree_at(start, goal, place),
    }
}

/// Each generated move with whether it is restoring.
fn tell_restoring(
    alloc: Global,
    start: &Config,
    goal: &Config,
    moves: Vec<Generated>,
) -> Result<Vec<First>, Memory>
    requires { All (LeavesGoals goal.now) moves.items }
    ensures told { IfOk result (λ fs. All (IsTold start.now goal.now) fs.items) }
    ensures same { IfOk result (λ fs. generated_of fs.items ≡ moves.items) }
{
    let mut firsts = Vec::with_capacity(alloc, moves.len())?;
    for generated in moves {
        let is_restoring = is_restoring(start, goal, &generated);
        firsts.push(First {
            generated,
            is_restoring,
        })?;
    }
    Ok(firsts)
}
