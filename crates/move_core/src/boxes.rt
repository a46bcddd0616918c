//! Generators, extenders and rules as boxes of a kind. What a box gives or answers is what the definitions
//! say of its kind, whatever the box's type and whatever it was asked before.
ghost use Rattle.std.specs.Prelude.{◌≡◌, ◌↔◌, ℕ, IsTrue, OnErr, OnOk};
ghost use Rattle.yang_model.specs.ModelSets.{ModelSet};
ghost use Rattle.move_core.specs.Appends.{Appends, AppendsSome};
ghost use Rattle.move_core.specs.Contexts.{IsNamed, IsResult, IsValidIn, rulebook};
ghost use Rattle.move_core.specs.Extensions.{IsExtension};
ghost use Rattle.move_core.specs.Generated.{IsGenerated};
ghost use Rattle.move_core.specs.Moves.{IsDefined};
ghost use Rattle.move_core.specs.Rules.{Passes};

use crate::{Ctx, Generated, Move};
use conf_doc::Config;
use host_core::Memory;
use std::alloc::Global;

/// A generator: the moves that lead from one configuration towards another.
pub trait MoveGen: Drop {
    ghost gen_kind: { Self → ℕ };

    /// The kind: 1 for tables, 2 for keys, 3 for fields, 4 for seeds, 5 for items.
    fn kind(&self) -> u32
        ensures { result ≡ gen_kind self.now };

    /// Appends the moves of the kind, each with its place and its class, each once. For want of memory
    /// there may be some only.
    fn moves(
        &mut self,
        alloc: Global,
        ctx: &Ctx,
        cur: &Config,
        goal: &Config,
        out: &mut Vec<Generated>,
    ) -> Result<(), Memory>
        requires named { IsNamed ctx.now }
        requires cur { IsValidIn ctx.now cur.now }
        requires goal { IsValidIn ctx.now goal.now }
        ensures ok { let kind = gen_kind self.old in
            let Is = IsGenerated (rulebook ctx.now) cur.now goal.now kind in
            OnOk result (Appends Is out.old.items out.new.items) }
        ensures err { let kind = gen_kind self.old in
            let Is = IsGenerated (rulebook ctx.now) cur.now goal.now kind in
            OnErr result (AppendsSome Is out.old.items out.new.items) }
        ensures kind { gen_kind self.new ≡ gen_kind self.old };
}

/// An extender: the moves that a move is followed by.
pub trait MoveExt: Drop {
    ghost ext_kind: { Self → ℕ };

    /// The kind: 1 for the place above, 2 for the delete, 3 for referrers, 4 for required values.
    fn kind(&self) -> u32
        ensures { result ≡ ext_kind self.now };

    /// Appends the extensions of the kind that a move has at cur, each once. For want of memory there may
    /// be some only.
    fn extend(
        &mut self,
        alloc: Global,
        ctx: &Ctx,
        cur: &Config,
        goal: &Config,
        mv: &Move,
        out: &mut Vec<Move>,
    ) -> Result<(), Memory>
        requires named { IsNamed ctx.now }
        requires cur { IsValidIn ctx.now cur.now }
        requires goal { IsValidIn ctx.now goal.now }
        requires defined { IsDefined cur.now mv.now }
        ensures ok { let kind = ext_kind self.old in
            let Is = IsExtension (rulebook ctx.now) cur.now goal.now kind mv.now in
            OnOk result (Appends Is out.old.items out.new.items) }
        ensures err { let kind = ext_kind self.old in
            let Is = IsExtension (rulebook ctx.now) cur.now goal.now kind mv.now in
            OnErr result (AppendsSome Is out.old.items out.new.items) }
        ensures kind { ext_kind self.new ≡ ext_kind self.old };
}

/// A rule that a move is judged by. A box may fit some models only, until it begins with others.
pub trait MoveRule: Drop {
    ghost rule_kind: { Self → ℕ };

    /// The models that the box fits.
    ghost fits: { Self → ModelSet → Type 0 };

    /// The kind: 1 full, 2 no dependency, 3 no empty table, 4 create-only, 5 required.
    fn kind(&self) -> u32
        ensures { result ≡ rule_kind self.now };

    /// Makes the box fit the models. It takes no memory.
    fn begin(&mut self, ctx: &Ctx)
        requires { IsNamed ctx.now }
        ensures fits { fits self.new ctx.now.models }
        ensures kind { rule_kind self.new ≡ rule_kind self.old };

    /// Whether the rule lets a move pass that makes next of cur.
    fn allows(&mut self, ctx: &Ctx, cur: &Config, next: &Config, goal: &Config, mv: &Move) -> bool
        requires fits { fits self.old ctx.now.models }
        requires named { IsNamed ctx.now }
        requires cur { IsValidIn ctx.now cur.now }
        requires next { IsResult cur.now mv.now next.now }
        ensures allows { let kind = rule_kind self.old in
            IsTrue result ↔ Passes (rulebook ctx.now) kind cur.now next.now mv.now }
        ensures fits { fits self.new ctx.now.models }
        ensures kind { rule_kind self.new ≡ rule_kind self.old };
}
