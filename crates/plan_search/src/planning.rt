//! The search for a plan: the moves come from a kit.
ghost use Rattle.std.specs.Prelude.{◌≡◌, ◌↔◌, ◌+◌, ◌<◌, [], ◌∷◌, length, IfOk, IsTrue, MatchOption};
ghost use Rattle.move_core.specs.Contexts.{IsNamed, IsValidIn, rulebook};
ghost use Rattle.move_core.specs.Kinds.{AreBefore, AreOfKinds, extender_kinds, generator_kinds, rule_kinds};
ghost use Rattle.move_lists.specs.Firsts.{AreFirstsOf};
ghost use Rattle.move_lists.specs.Offers.{AreOffersOf};
ghost use Rattle.plan_search.specs.Kits.{move_problem, moves_lawful};
ghost use Rattle.plan_search.specs.Searches.{IsSearchAnswer};
ghost use Rattle.plan_search.specs.Stacks.{but_first};

use crate::expanding::Expanding;
use crate::hashed::Hashed;
use crate::rules::keep_rules;
use crate::searching::find_plan;
use crate::{SearchError, Steps};
use conf_doc::Config;
use host_core::Memory;
use move_core::{
    Boxes, Ctx, Kit, Move, MoveExt, MoveGen, MoveRule, Plan, listed_moves_are_defined, step,
};
use move_lists::{Firsts, Offers, first_moves, leading_move, listed_in_part, offered_moves};
use std::alloc::Global;
use std::marker::PhantomData;
use std::sync::ledger::Ledger;

/// The part in which the move stands that the list begins with, which is tried before it.
const LEADING: u8 = 1;

/// The moves from start to goal that a kit lists and allows. The boxes' types are there for contracts alone.
#[derive(Drop)]
struct KitMoves<'a> {
    ctx: &'a Ctx,
    start: &'a Config,
    goal: &'a Hashed,
    gens: PhantomData<Vec<Box<dyn MoveGen>>>,
    exts: PhantomData<Vec<Box<dyn MoveExt>>>,
    rules: PhantomData<Vec<Box<dyn MoveRule>>>,
}

impl<'a> Expanding for KitMoves<'a> {
    type Kit = Kit;

    ghost problem = { λ s. move_problem s.ctx.now s.start.now s.goal.now };

    ghost is_ready = { λ s kit.
        (IsNamed s.ctx.now × IsValidIn s.ctx.now s.goal.now)
        × (AreOfKinds (λ b. (MoveGen-box b).gen_kind b.value) generator_kinds kit.gens.items
        × AreOfKinds (λ b. (MoveExt-box b).ext_kind b.value) extender_kinds kit.exts.items
        × AreOfKinds (λ b. (MoveRule-box b).rule_kind b.value) rule_kinds kit.rules.items)
        × AreBefore (length rule_kinds) (λ b. (MoveRule-box b).fits b.value s.ctx.now.models)
        kit.rules.items };

    ghost are_offers = { λ s cur os. AreOffersOf (rulebook s.ctx.now) cur s.goal.now os };

    ghost are_firsts = { λ s cur fs.
        AreFirstsOf (rulebook s.ctx.now) s.start.now cur s.goal.now fs };

    ghost lawful = { λ s. moves_lawful s.ctx.now s.start.now s.goal.now };

    fn start(&self) -> &Config
        ensures { result.now ≡ self.now.start.now }
    {
        self.start
    }

    fn goal(&self) -> &Hashed
        ensures { result.now ≡ self.now.goal.now }
    {
        self.goal
    }

    fn offers(&self, alloc: Global, kit: &mut Kit, cur: &Config) -> Result<Offers, Memory> {
        offered_moves(alloc, self.ctx, kit, self.start, cur, self.goal.config())
    }

    fn leading(&self, alloc: Global, cur: &Config, offers: &Offers) -> Result<Vec<Move>, Memory> {
        let goal = self.goal.config();
        let found = leading_move(alloc, self.ctx, self.start, cur, goal, offers)?;
        moves_of(alloc, found)
    }

    fn firsts(&self, alloc: Global, cur: &Config, offers: Offers) -> Result<Firsts, Memory> {
        first_moves(alloc, self.ctx, self.start, cur, self.goal.config(), offers)
    }

    fn list(
        &self,
        alloc: Global,
        kit: &mut Kit,
        cur: &Config,
        firsts: &Firsts,
        part: u8,
    ) -> Result<Vec<Move>, Memory> {
        let goal = self.goal.config();
        let moves = listed_in_part(alloc, self.ctx, kit, self.start, cur, goal, firsts, part)?;
        if part == LEADING {
            Ok(but_first(moves))
        } else {
            Ok(moves)
        }
    }

    fn try_move(
        &self,
        alloc: Global,
        kit: &mut Kit,
        cur: &Config,
        mv: &Move,
    ) -> Result<Option<Config>, Memory> {
        listed_moves_are_defined();
        let _tables = cur.len();
        let next = step(alloc, cur, mv)?;
        let goal = self.goal.config();
        if !keep_rules(self.ctx, kit, cur, &next, goal, mv) || is_same(cur, &next, mv) {
            Ok(None)
        } else {
            Ok(Some(next))
        }
    }
}

/// All moves but the first.
fn but_first(moves: Vec<Move>) -> Vec<Move>
    ensures { result.items ≡ but_first moves.items }
{
    let mut moves = moves;
    if !moves.is_empty() {
        let first = moves.remove(0);
        drop(first);
    }
    moves
}

/// A move alone, or nothing.
fn moves_of(alloc: Global, found: Option<Move>) -> Result<Vec<Move>, Memory>
    ensures { IfOk result (λ ms. MatchOption found (ms.items ≡ []) (λ mv. ms.items ≡ mv ∷ [])) }
{
    let mut moves = Vec::new(alloc);
    match found {
        None => Ok(moves),
        Some(mv) => {
            moves.push(mv)?;
            Ok(moves)
        }
    }
}

/// Whether a configuration is the one that a move leads to from it. They are compared as a whole only where the
/// move's entry is the same in both.
fn is_same(cur: &Config, next: &Config, mv: &Move) -> bool
    ensures { IsTrue result ↔ (next.now ≡ cur.now) }
{
    let place = mv.place();
    if place.len() > 1 && !cur.agrees_at_entry(next, place.name_at(0), place.name_at(1)) {
        return false;
    }
    next.same(cur)
}

/// The first plan from start to goal, by a kit that begins with the models.
fn search_by_kit<L: Ledger>(
    alloc: Global,
    ctx: &Ctx,
    kit: &mut Kit,
    start: &Config,
    goal: &Hashed,
    budget: u32,
    steps: &mut Steps<L>,
) -> Result<Plan, SearchError>
    requires kinds { ⟦<Kit as Boxes>⟧.HasKinds kit.old }
    requires named { IsNamed ctx.now }
    requires start { IsValidIn ctx.now start.now }
    requires goal { IsValidIn ctx.now goal.now }
    requires budget { 0 < budget }
    ensures kinds { ⟦<Kit as Boxes>⟧.HasKinds kit.new }
    ensures answer { IsSearchAnswer (rulebook ctx.now) start.now goal.now budget result }
    ensures steps { steps.new < steps.old + budget }
{
    kit.begin(ctx);
    let source = KitMoves {
        ctx,
        start,
        goal,
        gens: PhantomData,
        exts: PhantomData,
        rules: PhantomData,
    };
    find_plan(alloc, &source, kit, budget, steps)
}

/// The first plan from start to goal, by the moves and rules of the kit. Fewer than budget configurations
/// are expanded, each a step.
pub fn search<L: Ledger>(
    alloc: Global,
    ctx: &Ctx,
    kit: &mut Kit,
    start: &Config,
    goal: &Config,
    budget: u32,
    steps: &mut Steps<L>,
) -> Result<Plan, SearchError>
    requires kinds { ⟦<Kit as Boxes>⟧.HasKinds kit.old }
    requires named { IsNamed ctx.now }
    requires start { IsValidIn ctx.now start.now }
    requires goal { IsValidIn ctx.now goal.now }
    requires budget { 0 < budget }
    ensures kinds { ⟦<Kit as Boxes>⟧.HasKinds kit.new }
    ensures answer { IsSearchAnswer (rulebook ctx.now) start.now goal.now budget result }
    ensures steps { steps.new < steps.old + budget }
{
    match goal.sharing(alloc, start) {
        Ok(shared) => {
            let goal = Hashed::new(shared);
            search_by_kit(alloc, ctx, kit, start, &goal, budget, steps)
        }
        Err(_) => Err(SearchError::Memory),
    }
}
