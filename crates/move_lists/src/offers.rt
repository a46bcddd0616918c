//! The generated moves at a configuration, and the one that the list begins with.
ghost use Rattle.std.specs.Prelude.{◌≡◌, ◌↔◌, All, IfOk, IsTrue, MatchOption};
ghost use Rattle.std.specs.Option.{option_copied};
ghost use Rattle.std.specs.declared.cmp.Ordering.TheVariants.{Less};
ghost use Rattle.move_core.specs.Contexts.{IsNamed, IsValidIn, rulebook};
ghost use Rattle.move_core.specs.ListedOrder.{listed_cmp};
ghost use Rattle.move_lists.specs.Firsts.{LeavesGoals};
ghost use Rattle.move_lists.specs.Leading.{LeadsAmong, MayLead, lone};
ghost use Rattle.move_lists.specs.Offers.{AreOffersOf, HasNoLeading, IsLeading};

use crate::asking::{Question, generated_moves};
use crate::firsts::is_restoring;
use conf_doc::Config;
use host_core::Memory;
use move_core::{Boxes, Ctx, Generated, Kit, Move, cmp_moves};
use std::alloc::Global;
use std::cmp::Ordering;
use std::marker::Model;

/// The generated moves at a configuration. Contracts see the list of them.
#[derive(Drop)]
pub struct Offers {
    moves: Vec<Generated>,
}

impl Model for Offers {
    ghost use Rattle.std.specs.Prelude.{List};
    ghost use Rattle.move_core.specs.declared.moves.Generated.{Generated as Offer};

    ghost Value = { List Offer };

    ghost view = { λ os. os.moves.items };
}

impl Offers {
    /// Each of them.
    pub(crate) fn items(&self) -> &[Generated]
        ensures { result.now ≡ self.now }
    {
        &self.moves
    }

    /// Each of them, with no copy.
    pub(crate) fn into_moves(self) -> Vec<Generated>
        ensures { result.items ≡ self }
    {
        self.moves
    }
}

/// The generated moves at a configuration towards goal.
pub fn offered_moves(
    alloc: Global,
    ctx: &Ctx,
    kit: &mut Kit,
    start: &Config,
    cur: &Config,
    goal: &Config,
) -> Result<Offers, Memory>
    requires kinds { ⟦<Kit as Boxes>⟧.HasKinds kit.old }
    requires named { IsNamed ctx.now }
    requires cur { IsValidIn ctx.now cur.now }
    requires goal { IsValidIn ctx.now goal.now }
    ensures kinds { ⟦<Kit as Boxes>⟧.HasKinds kit.new }
    ensures rules { kit.new.rules ≡ kit.old.rules }
    ensures offers { IfOk result (AreOffersOf (rulebook ctx.now) cur.now goal.now) }
{
    let question = Question {
        ctx,
        start,
        cur,
        goal,
    };
    let moves = generated_moves(alloc, &question, kit)?;
    Ok(Offers { moves })
}

/// Whether of two generated moves, each alone, the first comes before the second where neither is restoring.
fn comes_before(a: &Generated, b: &Generated) -> bool
    ensures { IsTrue result ↔ (listed_cmp (lone a.now) (lone b.now) ≡ Less) }
{
    match a.class.cmp(&b.class) {
        Ordering::Equal => cmp_moves(&a.mv, &b.mv).is_lt(),
        unequal => unequal.is_lt(),
    }
}

/// Whether a generated move that isn't restoring comes before the one that was found, where one was.
fn may_lead(found: Option<&Generated>, generated: &Generated) -> bool
    ensures { IsTrue result ↔ MayLead (option_copied found.entry) generated.now }
{
    match found {
        None => true,
        Some(first) => comes_before(generated, first),
    }
}

/// The one that comes first of those that aren't restoring. Whether one is restoring is looked at only where it may be
/// this one.
fn leading<'a>(start: &Config, goal: &Config, offers: &'a [Generated]) -> Option<&'a Generated>
    requires { All (LeavesGoals goal.now) offers.now }
    ensures { LeadsAmong start.now goal.now offers.now (option_copied result) }
{
    let mut found: Option<&Generated> = None;
    for generated in offers {
        if may_lead(found, generated) && !is_restoring(start, goal, generated) {
            found = Some(generated);
        }
    }
    found
}

/// The move that the list at a configuration begins with where it begins with a generated move that isn't restoring, or
/// None where there is no such one. The context and the configuration are there for the contract alone.
pub fn leading_move(
    alloc: Global,
    ctx: &Ctx,
    start: &Config,
    cur: &Config,
    goal: &Config,
    offers: &Offers,
) -> Result<Option<Move>, Memory>
    requires offers { AreOffersOf (rulebook ctx.now) cur.now goal.now offers.now }
    ensures leads { IfOk result (λ found. MatchOption found
        (HasNoLeading (rulebook ctx.now) start.now cur.now goal.now)
        (IsLeading (rulebook ctx.now) start.now cur.now goal.now)) }
{
    let _ = ctx;
    let _ = cur;
    match leading(start, goal, offers.items()) {
        None => Ok(None),
        Some(first) => Ok(Some(first.mv.copy(alloc)?)),
    }
}
