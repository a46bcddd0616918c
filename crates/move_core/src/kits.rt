//! A kit: the boxes of all kinds, in order.
ghost use Rattle.std.specs.Prelude.{◌≡◌, ◌↔◌, ◌+◌, ◌<◌, ℕ, length, IsTrue, OnErr, OnOk};
ghost use Rattle.yang_model.specs.ModelSets.{ModelSet};
ghost use Rattle.move_core.specs.Appends.{Appends, AppendsSome};
ghost use Rattle.move_core.specs.Contexts.{IsNamed, IsResult, IsValidIn, rulebook};
ghost use Rattle.move_core.specs.Extensions.{IsExtension};
ghost use Rattle.move_core.specs.Generated.{IsGenerated};
ghost use Rattle.move_core.specs.Moves.{IsDefined};
ghost use Rattle.move_core.specs.Rules.{Passes};

use crate::{Ctx, Generated, Move, MoveExt, MoveGen, MoveRule};
use conf_doc::Config;
use host_core::Memory;
use std::alloc::Global;

/// The boxes that a planner asks. Each call that takes a kit asks `HasKinds` of it, and leaves it so.
#[derive(Drop)]
pub struct Kit {
    pub gens: Vec<Box<dyn MoveGen>>,
    pub exts: Vec<Box<dyn MoveExt>>,
    pub rules: Vec<Box<dyn MoveRule>>,
}

/// What is said of a kit.
pub trait Boxes {
    /// The generators are of the kinds 1 to 5, the extenders of 1 to 4 and the rules of 1 to 5, in order.
    ghost HasKinds: { Self → Type 0 };

    /// The rules before an index fit the models.
    ghost HasFits: { ℕ → Self → ModelSet → Type 0 };

    /// Each rule fits the models.
    ghost IsFit: { Self → ModelSet → Type 0 };
}

impl Boxes for Kit {
    ghost use Rattle.move_core.specs.Kinds.{AreBefore, AreOfKinds, extender_kinds, generator_kinds, rule_kinds};

    ghost HasKinds = { λ kit.
        AreOfKinds (λ b. (MoveGen-box b).gen_kind b.value) generator_kinds kit.gens.items
        × AreOfKinds (λ b. (MoveExt-box b).ext_kind b.value) extender_kinds kit.exts.items
        × AreOfKinds (λ b. (MoveRule-box b).rule_kind b.value) rule_kinds kit.rules.items };

    ghost HasFits = { λ n kit models.
        AreBefore n (λ b. (MoveRule-box b).fits b.value models) kit.rules.items };

    ghost IsFit = { λ kit models.
        AreBefore (length rule_kinds) (λ b. (MoveRule-box b).fits b.value models) kit.rules.items };
}

/// Asks a generator.
fn ask_generator(
    alloc: Global,
    generator: &mut Box<dyn MoveGen>,
    ctx: &Ctx,
    cur: &Config,
    goal: &Config,
    out: &mut Vec<Generated>,
) -> Result<(), Memory>
    requires named { IsNamed ctx.now }
    requires cur { IsValidIn ctx.now cur.now }
    requires goal { IsValidIn ctx.now goal.now }
    ensures ok { (kind : ℕ) → gen_kind generator.old ≡ kind →
        let Is = IsGenerated (rulebook ctx.now) cur.now goal.now kind in
        OnOk result (Appends Is out.old.items out.new.items) }
    ensures err { (kind : ℕ) → gen_kind generator.old ≡ kind →
        let Is = IsGenerated (rulebook ctx.now) cur.now goal.now kind in
        OnErr result (AppendsSome Is out.old.items out.new.items) }
    ensures kind { gen_kind generator.new ≡ gen_kind generator.old }
{
    generator.moves(alloc, ctx, cur, goal, out)
}

/// Asks an extender.
fn ask_extender(
    alloc: Global,
    extender: &mut Box<dyn MoveExt>,
    ctx: &Ctx,
    cur: &Config,
    goal: &Config,
    mv: &Move,
    out: &mut Vec<Move>,
) -> Result<(), Memory>
    requires named { IsNamed ctx.now }
    requires cur { IsValidIn ctx.now cur.now }
    requires goal { IsValidIn ctx.now goal.now }
    requires defined { IsDefined cur.now mv.now }
    ensures ok { (kind : ℕ) → ext_kind extender.old ≡ kind →
        let Is = IsExtension (rulebook ctx.now) cur.now goal.now kind mv.now in
        OnOk result (Appends Is out.old.items out.new.items) }
    ensures err { (kind : ℕ) → ext_kind extender.old ≡ kind →
        let Is = IsExtension (rulebook ctx.now) cur.now goal.now kind mv.now in
        OnErr result (AppendsSome Is out.old.items out.new.items) }
    ensures kind { ext_kind extender.new ≡ ext_kind extender.old }
{
    extender.extend(alloc, ctx, cur, goal, mv, out)
}

/// Begins a rule.
fn begin_rule(rule: &mut Box<dyn MoveRule>, ctx: &Ctx)
    requires { IsNamed ctx.now }
    ensures fits { fits rule.new ctx.now.models }
    ensures kind { rule_kind rule.new ≡ rule_kind rule.old }
{
    rule.begin(ctx)
}

/// Asks a rule.
fn ask_rule(
    rule: &mut Box<dyn MoveRule>,
    ctx: &Ctx,
    cur: &Config,
    next: &Config,
    goal: &Config,
    mv: &Move,
) -> bool
    requires fits { fits rule.old ctx.now.models }
    requires named { IsNamed ctx.now }
    requires cur { IsValidIn ctx.now cur.now }
    requires next { IsResult cur.now mv.now next.now }
    ensures allows { (kind : ℕ) → rule_kind rule.old ≡ kind →
        IsTrue result ↔ Passes (rulebook ctx.now) kind cur.now next.now mv.now }
    ensures fits { fits rule.new ctx.now.models }
    ensures kind { rule_kind rule.new ≡ rule_kind rule.old }
{
    rule.allows(ctx, cur, next, goal, mv)
}

impl Kit {
    /// Asks the generator at an index, counted from 0: it is of the kind that follows.
    pub fn moves_at(
        &mut self,
        alloc: Global,
        i: usize,
        ctx: &Ctx,
        cur: &Config,
        goal: &Config,
        out: &mut Vec<Generated>,
    ) -> Result<(), Memory>
        requires kinds { ⟦<Kit as Boxes>⟧.HasKinds self.old }
        requires at { i < 5 }
        requires named { IsNamed ctx.now }
        requires cur { IsValidIn ctx.now cur.now }
        requires goal { IsValidIn ctx.now goal.now }
        ensures ok { let Is = IsGenerated (rulebook ctx.now) cur.now goal.now (i + 1) in
            OnOk result (Appends Is out.old.items out.new.items) }
        ensures err { let Is = IsGenerated (rulebook ctx.now) cur.now goal.now (i + 1) in
            OnErr result (AppendsSome Is out.old.items out.new.items) }
        ensures kinds { ⟦<Kit as Boxes>⟧.HasKinds self.new }
        ensures rules { self.new.rules ≡ self.old.rules }
    {
        ask_generator(alloc, &mut self.gens[i], ctx, cur, goal, out)
    }

    /// Asks the extender at an index, counted from 0: it is of the kind that follows.
    pub fn extend_at(
        &mut self,
        alloc: Global,
        i: usize,
        ctx: &Ctx,
        cur: &Config,
        goal: &Config,
        mv: &Move,
        out: &mut Vec<Move>,
    ) -> Result<(), Memory>
        requires kinds { ⟦<Kit as Boxes>⟧.HasKinds self.old }
        requires at { i < 4 }
        requires named { IsNamed ctx.now }
        requires cur { IsValidIn ctx.now cur.now }
        requires goal { IsValidIn ctx.now goal.now }
        requires defined { IsDefined cur.now mv.now }
        ensures ok { let Is = IsExtension (rulebook ctx.now) cur.now goal.now (i + 1) mv.now in
            OnOk result (Appends Is out.old.items out.new.items) }
        ensures err { let Is = IsExtension (rulebook ctx.now) cur.now goal.now (i + 1) mv.now in
            OnErr result (AppendsSome Is out.old.items out.new.items) }
        ensures kinds { ⟦<Kit as Boxes>⟧.HasKinds self.new }
        ensures rules { self.new.rules ≡ self.old.rules }
    {
        ask_extender(alloc, &mut self.exts[i], ctx, cur, goal, mv, out)
    }

    /// Begins the rule at an index, counted from 0. Rules that fit the models still do.
    fn begin_at(&mut self, i: usize, ctx: &Ctx)
        requires kinds { ⟦<Kit as Boxes>⟧.HasKinds self.old }
        requires at { i < 5 }
        requires named { IsNamed ctx.now }
        requires fits { ⟦<Kit as Boxes>⟧.HasFits i self.old ctx.now.models }
        ensures kinds { ⟦<Kit as Boxes>⟧.HasKinds self.new }
        ensures fits { ⟦<Kit as Boxes>⟧.HasFits (i + 1) self.new ctx.now.models }
    {
        begin_rule(&mut self.rules[i], ctx)
    }

    /// Begins each rule. It takes no memory.
    pub fn begin(&mut self, ctx: &Ctx)
        requires kinds { ⟦<Kit as Boxes>⟧.HasKinds self.old }
        requires named { IsNamed ctx.now }
        ensures kinds { ⟦<Kit as Boxes>⟧.HasKinds self.new }
        ensures fits { ⟦<Kit as Boxes>⟧.IsFit self.new ctx.now.models }
    {
        self.begin_at(0, ctx);
        self.begin_at(1, ctx);
        self.begin_at(2, ctx);
        self.begin_at(3, ctx);
        self.begin_at(4, ctx);
    }

    /// Asks the rule at an index, counted from 0: it is of the kind that follows.
    pub fn allows_at(
        &mut self,
        i: usize,
        ctx: &Ctx,
        cur: &Config,
        next: &Config,
        goal: &Config,
        mv: &Move,
    ) -> bool
        requires kinds { ⟦<Kit as Boxes>⟧.HasKinds self.old }
        requires fits { ⟦<Kit as Boxes>⟧.IsFit self.old ctx.now.models }
        requires at { i < 5 }
        requires named { IsNamed ctx.now }
        requires cur { IsValidIn ctx.now cur.now }
        requires next { IsResult cur.now mv.now next.now }
        ensures allows { let kind = i + 1 in
            IsTrue result ↔ Passes (rulebook ctx.now) kind cur.now next.now mv.now }
        ensures kinds { ⟦<Kit as Boxes>⟧.HasKinds self.new }
        ensures fits { ⟦<Kit as Boxes>⟧.IsFit self.new ctx.now.models }
    {
        ask_rule(&mut self.rules[i], ctx, cur, next, goal, mv)
    }
}
