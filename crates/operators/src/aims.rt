//! What an operator aims at: a goal with the first plan to it, or what `apply-patch` would refuse.
ghost use Rattle.std.specs.Prelude.{◌≡◌, ◌≢◌, ◌<◌, IfOk, IsSome};
ghost use Rattle.move_core.specs.Contexts.{IsNamed, IsValidIn};
ghost use Rattle.patch_core.specs.Operation.{operations};
ghost use Rattle.gcu_requests.specs.ReadScripts.{patched_all};
ghost use Rattle.gcu_requests.specs.SessionsAsked.{patch_at as patch_found};
ghost use Rattle.sessions.specs.Turns.{Refusal as no_aim};
ghost use Rattle.gcu_output.specs.Lines.{number};
ghost use Rattle.gcu_output.specs.declared.outcomes.Outcome.TheVariants.{Memory as no_memory};
ghost use Rattle.operators.specs.Aims.{aim_view};
ghost use Rattle.operators.specs.Runs.{IsAim, IsAimOf, IsPlanned};

use conf_doc::Config;
use gcu_output::Outcome;
use gcu_requests::{Patches, aim, patch_at};
use host_core::{Memory, Txt};
use move_core::{Boxes, Ctx, Kit, Plan};
use patch_core::Patch;
use plan_search::{SearchError, first_plan};
use std::alloc::Global;

/// What an operator aims at.
#[derive(Drop)]
pub(crate) enum Aim {
    /// A goal, and a plan to it.
    Towards { goal: Config, plan: Plan },
    /// Nothing, for this refusal.
    Refusal { number: u8 },
}

/// What the patch in a file makes of the configuration now.
pub(crate) fn aim_of_file(
    alloc: Global,
    ctx: &Ctx,
    kit: &mut Kit,
    patches: &Patches,
    budget: u32,
    file: &Txt,
    now: &Config,
) -> Result<Aim, Memory>
    requires kinds { ⟦<Kit as Boxes>⟧.HasKinds kit.old }
    requires named { IsNamed ctx.now }
    requires start { IsValidIn ctx.now now.now }
    requires budget { 0 < budget }
    requires found { IsSome (patch_found file.now (patched_all patches.now)) }
    ensures kinds { ⟦<Kit as Boxes>⟧.HasKinds kit.new }
    ensures aim { IfOk result (λ a.
        IsAimOf (patched_all patches.now) budget ctx.now file.now now.now (aim_view a)) }
{
    match patch_at(file, patches.items()) {
        Some(patch) => aim_of_patch(alloc, ctx, kit, budget, patch, now),
        None => unreachable!(),
    }
}

/// What a patch makes of the configuration now.
fn aim_of_patch(
    alloc: Global,
    ctx: &Ctx,
    kit: &mut Kit,
    budget: u32,
    patch: &Patch,
    now: &Config,
) -> Result<Aim, Memory>
    requires kinds { ⟦<Kit as Boxes>⟧.HasKinds kit.old }
    requires named { IsNamed ctx.now }
    requires start { IsValidIn ctx.now now.now }
    requires budget { 0 < budget }
    ensures kinds { ⟦<Kit as Boxes>⟧.HasKinds kit.new }
    ensures aim { IfOk result (λ a.
        IsAim budget ctx.now (operations patch.now) now.now (aim_view a)) }
{
    match aim(alloc, ctx, patch, now) {
        Ok(goal) => aim_at_goal(alloc, ctx, kit, budget, now, goal),
        Err(refusal) => refused_unless_memory(&refusal),
    }
}

/// Nothing, for the number of a refusal, which isn't want of memory.
fn refused_unless_memory(refusal: &Outcome) -> Result<Aim, Memory>
    ensures other { IfOk result (λ _. refusal.now ≢ no_memory) }
    ensures aim { IfOk result (λ a. aim_view a ≡ no_aim (number refusal.now)) }
{
    match refusal {
        Outcome::Memory => Err(Memory),
        other => Ok(refused(other)),
    }
}

/// A plan from the configuration now to a goal.
fn aim_at_goal(
    alloc: Global,
    ctx: &Ctx,
    kit: &mut Kit,
    budget: u32,
    now: &Config,
    goal: Config,
) -> Result<Aim, Memory>
    requires kinds { ⟦<Kit as Boxes>⟧.HasKinds kit.old }
    requires named { IsNamed ctx.now }
    requires start { IsValidIn ctx.now now.now }
    requires goal { IsValidIn ctx.now goal }
    requires budget { 0 < budget }
    ensures kinds { ⟦<Kit as Boxes>⟧.HasKinds kit.new }
    ensures aim { IfOk result (λ a. IsPlanned budget ctx.now now.now goal (aim_view a)) }
{
    match first_plan(alloc, ctx, kit, now, &goal, budget) {
        Ok(plan) => Ok(Aim::Towards { goal, plan }),
        Err(SearchError::Unorderable) => Ok(refused(&Outcome::Unorderable)),
        Err(SearchError::Budget(n)) => Ok(refused(&Outcome::Budget { n })),
        Err(SearchError::Memory) => Err(Memory),
    }
}

/// Nothing, for the number of a refusal.
fn refused(refusal: &Outcome) -> Aim
    ensures { aim_view result ≡ no_aim (number refusal.now) }
{
    Aim::Refusal {
        number: refusal.status(),
    }
}
