//! What a change of several scopes needs: models, rules and patch once, and the start and the goal of each
//! scope.
ghost use Rattle.std.specs.Prelude.{◌≡◌, ◌≤◌, ◌⊎◌, ℕ, IfErr, IfOk, IfSome, map};
ghost use Rattle.host_core.specs.Counts.{DiskMayRise};
ghost use Rattle.host_core.specs.Names.{longest_plain_name, longest_scoped_name};
ghost use Rattle.host_core.specs.State.{settled};
ghost use Rattle.conf_store.specs.Folds.{StandsFor};
ghost use Rattle.move_core.specs.Contexts.{AgreeElsewhere, IsNamed, IsValidIn};
ghost use Rattle.patch_core.specs.Operation.{operations};
ghost use Rattle.scopes.specs.Splitting.{part_of, split as split_of};
ghost use Rattle.scopes.specs.Views.{seen, seen_files};
ghost use Rattle.gcu_output.specs.declared.outcomes.Outcome.TheVariants.{Memory as no_memory};
ghost use Rattle.gcu_inputs.specs.Asking.{follows, of_each};
ghost use Rattle.gcu_inputs.specs.Preparing.{Finds, Found, Refuses, RefusesAlways};
ghost use Rattle.gcu_inputs.specs.Reads.{ReadsFiles, ReadsMayRise};
ghost use Rattle.gcu_requests.specs.ScopesAsked.{part_asked, patched_asked, patched_ends as ends_asked, patched_goal, refusal_of, scopes_asked, split_answer};
ghost use Rattle.gcu_requests.specs.ScopesPlannings.{AreInOrder, AreReady, IsReadyBetween, IsRefusalOf, IsStill, StandsInEach, plan_in, plans_of, scope_planning};

use crate::patch_goal::patch_start;
use crate::plan_goal::judge_goal;
use crate::planning::read_start;
use conf_doc::Config;
use conf_store::Stored;
use gcu_inputs::{input_ctx, input_patch, test_uninterrupted};
use gcu_output::Outcome;
use host_core::{Host, Sequence, Txt};
use move_core::Ctx;
use patch_core::Patch;
use scopes::{Scope, Scoped, ScopedHost, SplitError, split};
use std::alloc::Global;

/// What the plan of one scope needs beside the context: what its files stand for, and its goal.
#[derive(Drop)]
pub struct Ends {
    pub stored: Stored,
    pub goal: Config,
}

/// The same with the scope.
#[derive(Drop)]
pub struct ScopeEnds {
    pub scope: Scope,
    pub ends: Ends,
}

/// What the plans of all scopes need.
#[derive(Drop)]
pub struct ScopesPlanning {
    pub ctx: Ctx,
    pub scopes: Sequence<ScopeEnds>,
    pub budget: u32,
}

/// Reads what a change of several scopes needs, with nothing pending.
pub fn prepare_scopes<H: Host>(
    alloc: Global,
    path: &Txt,
    budget: u32,
    host: &mut H,
) -> Result<ScopesPlanning, Outcome>
    requires longest { longest_scoped_name ≤ H.longest_name }
    requires ready { IfSome (H.told host.old) (λ s. s.pending ≡ settled) }
    ensures answer { Finds (H.told host.old) plans_of result (scopes_asked path.now budget) }
    ensures budget { IfOk result (λ all. all.budget ≡ budget) }
    ensures ready { IfOk result (λ all. AreReady all.ctx all.scopes) }
    ensures stands { IfOk result
        (λ all. IfSome (H.told host.old) (StandsInEach all.scopes)) }
    ensures order { IfOk result (λ all. AreInOrder all.scopes) }
    ensures still { IsStill H.told H.moment H.left_since host.old host.new }
    ensures counts { ReadsMayRise (H.counts host.old) (H.counts host.new) }
    ensures cause { IfErr result (Refuses (H.counts host.old) (H.counts host.new)) }
    ensures goes { H.goes_on host.old host.new }
{
    test_uninterrupted(alloc, host)?;
    let ctx = input_ctx(alloc, host)?;
    let patch = input_patch(alloc, path, host)?;
    let parts = split_patch(alloc, &patch)?;
    let scopes = read_scopes(alloc, &ctx, parts.as_slice(), host)?;
    Ok(ScopesPlanning {
        ctx,
        scopes,
        budget,
    })
}

/// The patch, scope by scope.
fn split_patch(alloc: Global, patch: &Patch) -> Result<Vec<Scoped>, Outcome>
    ensures answer { Found (λ parts. map part_of parts.items) result
        (follows (split_answer (split_of (operations patch.now)))) }
    ensures cause { IfErr result RefusesAlways }
{
    match split(alloc, patch) {
        Ok(parts) => Ok(parts),
        Err(SplitError::BadScope { index }) => Err(Outcome::BadScope { index }),
        Err(SplitError::Memory) => Err(Outcome::Memory),
    }
}

/// What the plan of each scope needs, in order.
fn read_scopes<H: Host>(
    alloc: Global,
    ctx: &Ctx,
    parts: &[Scoped],
    host: &mut H,
) -> Result<Sequence<ScopeEnds>, Outcome>
    requires longest { longest_scoped_name ≤ H.longest_name }
    requires ready { IfSome (H.told host.old) (λ s. s.pending ≡ settled) }
    requires named { IsNamed ctx.now }
    ensures answer { (budget : ℕ)
        → Finds (H.told host.old) (map (scope_planning ctx.now budget)) result
        (λ s. of_each (part_asked ctx.now budget s) (map part_of parts.now)) }
    ensures ready { IfOk result (AreReady ctx.now) }
    ensures stands { IfOk result (λ all. IfSome (H.told host.old) (StandsInEach all)) }
    ensures scopes { IfOk result (λ all.
        map (λ e. e.scope) all ≡ map (λ part. part.scope) parts.now) }
    ensures still { IsStill H.told H.moment H.left_since host.old host.new }
    ensures counts { DiskMayRise (H.counts host.old) (H.counts host.new) }
    ensures cause { IfErr result (Refuses (H.counts host.old) (H.counts host.new)) }
    ensures goes { H.goes_on host.old host.new }
{
    let mut all = Sequence::new(alloc);
    for part in parts {
        let found = read_scope(alloc, ctx, part, host)?;
        all.push(found)?;
    }
    Ok(all)
}

/// What the plan of one scope needs. A refusal is told with the scope and its number.
fn read_scope<H: Host>(
    alloc: Global,
    ctx: &Ctx,
    part: &Scoped,
    host: &mut H,
) -> Result<ScopeEnds, Outcome>
    requires longest { longest_scoped_name ≤ H.longest_name }
    requires ready { IfSome (H.told host.old) (λ s. s.pending ≡ settled) }
    requires named { IsNamed ctx.now }
    ensures answer { (budget : ℕ) → Finds (H.told host.old) (scope_planning ctx.now budget) result
        (λ s. part_asked ctx.now budget s (part_of part.now)) }
    ensures ready { IfOk result (λ e. IsReadyBetween ctx.now e.ends) }
    ensures stands { IfOk result (λ e. IfSome (H.told host.old)
        (λ s. StandsFor e.ends.stored (seen_files e.scope s.files))) }
    ensures scope { IfOk result (λ e. e.scope ≡ part.now.scope) }
    ensures still { IsStill H.told H.moment H.left_since host.old host.new }
    ensures counts { DiskMayRise (H.counts host.old) (H.counts host.new) }
    ensures cause { IfErr result (Refuses (H.counts host.old) (H.counts host.new)) }
    ensures goes { H.goes_on host.old host.new }
{
    let scope = part.scope;
    match view_ends(alloc, ctx, part, host) {
        Ok(ends) => Ok(ScopeEnds { scope, ends }),
        Err(refusal) => Err(refuse_scope(alloc, scope, refusal)),
    }
}

/// What the plan of one scope needs, with refusals as those of a folder.
fn view_ends<H: Host>(
    alloc: Global,
    ctx: &Ctx,
    part: &Scoped,
    host: &mut H,
) -> Result<Ends, Outcome>
    requires longest { longest_scoped_name ≤ H.longest_name }
    requires ready { IfSome (H.told host.old) (λ s. s.pending ≡ settled) }
    requires named { IsNamed ctx.now }
    ensures answer { (budget : ℕ) → Finds (H.told host.old) (plan_in ctx.now budget) result
        (λ s. patched_asked ctx.now budget (operations part.now.patch) (seen part.now.scope s)) }
    ensures ready { IfOk result (IsReadyBetween ctx.now) }
    ensures stands { IfOk result (λ e. IfSome (H.told host.old)
        (λ s. StandsFor e.stored (seen_files part.now.scope s.files))) }
    ensures still { IsStill H.told H.moment H.left_since host.old host.new }
    ensures counts { DiskMayRise (H.counts host.old) (H.counts host.new) }
    ensures cause { IfErr result (Refuses (H.counts host.old) (H.counts host.new)) }
    ensures goes { H.goes_on host.old host.new }
{
    let mut view = ScopedHost::new(host, part.scope);
    read_ends(alloc, ctx, &part.patch, &mut view)
}

/// What a plan needs in a folder, by the patch: no change under way, a valid start, and a goal that a plan
/// may have.
fn read_ends<H: Host>(
    alloc: Global,
    ctx: &Ctx,
    patch: &Patch,
    host: &mut H,
) -> Result<Ends, Outcome>
    requires longest { longest_plain_name ≤ H.longest_name }
    requires named { IsNamed ctx.now }
    ensures answer { (budget : ℕ) → Finds (H.told host.old) (plan_in ctx.now budget) result
        (patched_asked ctx.now budget (operations patch.now)) }
    ensures ready { IfOk result (IsReadyBetween ctx.now) }
    ensures stands { IfOk result
        (λ e. IfSome (H.told host.old) (λ s. StandsFor e.stored s.files)) }
    ensures reads { ReadsFiles H.told H.counts H.moment H.left_since H.goes_on host.old host.new }
    ensures cause { IfErr result (Refuses (H.counts host.old) (H.counts host.new)) }
{
    test_uninterrupted(alloc, host)?;
    read_both(alloc, ctx, patch, host)
}

/// A valid start, and a goal that a plan may have.
fn read_both<H: Host>(
    alloc: Global,
    ctx: &Ctx,
    patch: &Patch,
    host: &mut H,
) -> Result<Ends, Outcome>
    requires longest { longest_plain_name ≤ H.longest_name }
    requires named { IsNamed ctx.now }
    ensures answer { (budget : ℕ) → Finds (H.told host.old) (plan_in ctx.now budget) result
        (ends_asked ctx.now budget (operations patch.now)) }
    ensures ready { IfOk result (IsReadyBetween ctx.now) }
    ensures stands { IfOk result
        (λ e. IfSome (H.told host.old) (λ s. StandsFor e.stored s.files)) }
    ensures reads { ReadsFiles H.told H.counts H.moment H.left_since H.goes_on host.old host.new }
    ensures cause { IfErr result (Refuses (H.counts host.old) (H.counts host.new)) }
{
    let stored = read_start(alloc, ctx, host)?;
    patch_ends(alloc, ctx, patch, stored)
}

/// The start, and the goal that the patch makes of it.
fn patch_ends(alloc: Global, ctx: &Ctx, patch: &Patch, stored: Stored) -> Result<Ends, Outcome>
    ensures answer { (budget : ℕ) → Found (plan_in ctx.now budget) result
        (patched_goal ctx.now budget (operations patch.now) stored.config) }
    ensures same { IfOk result (λ e. e.stored ≡ stored) }
    ensures valid { IfOk result (λ e. IsValidIn ctx.now e.goal) }
    ensures elsewhere { IfOk result (λ e. AgreeElsewhere ctx.now e.stored.config e.goal) }
    ensures cause { IfErr result RefusesAlways }
{
    let made = patch_start(alloc, patch, &stored.config)?;
    let goal = judge_goal(alloc, ctx, &stored.config, made)?;
    Ok(Ends { stored, goal })
}

/// The refusal of a scope; a fault and want of memory stay what they are.
pub fn refuse_scope(alloc: Global, scope: Scope, refusal: Outcome) -> Outcome
    ensures { IsRefusalOf scope refusal result }
{
    match refusal {
        Outcome::Memory => Outcome::Memory,
        Outcome::InputFault => Outcome::InputFault,
        Outcome::DiskFault { step } => Outcome::DiskFault { step },
        other => tell_scope(alloc, scope, &other),
    }
}

/// The refusal of a scope by its number, or want of memory.
fn tell_scope(alloc: Global, scope: Scope, refusal: &Outcome) -> Outcome
    ensures { (result ≡ no_memory) ⊎ (result ≡ refusal_of scope refusal.now) }
{
    match scope.name(alloc) {
        Ok(name) => Outcome::ScopeRefused {
            scope: name,
            number: refusal.status(),
        },
        Err(_) => Outcome::Memory,
    }
}
