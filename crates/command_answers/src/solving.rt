//! The plan of a command that plans.
ghost use Rattle.std.specs.Prelude.{◌≤◌, ◌<◌, IfErr, IfSome};
ghost use Rattle.host_core.specs.Names.{longest_plain_name};
ghost use Rattle.gcu_words.specs.Views.{target_view};
ghost use Rattle.gcu_words.specs.Tasks.{reach};
ghost use Rattle.gcu_inputs.specs.Reads.{OnlyReads};
ghost use Rattle.gcu_requests.specs.WorkAsked.{dry_run_asked};
ghost use Rattle.gcu_requests.specs.ReadPlannings.{IsReadyToSearch};
ghost use Rattle.command_answers.specs.PlanCommands.{IsSolved, RefusesOrEnds, SaysPlan, planning_between};

use conf_doc::Config;
use conf_store::Stored;
use gcu_output::Outcome;
use gcu_requests::{Planning, prepare, test_target};
use gcu_words::Target;
use host_core::Host;
use move_core::{Boxes, Ctx, Kit, Plan};
use plan_search::{SearchError, first_plan};
use std::alloc::Global;

/// A plan for a target.
pub fn solve<H: Host>(
    alloc: Global,
    target: Target<'_>,
    budget: u32,
    kit: &mut Kit,
    host: &mut H,
) -> Result<Plan, Outcome>
    requires longest { longest_plain_name ≤ H.longest_name }
    requires kinds { ⟦<Kit as Boxes>⟧.HasKinds kit.old }
    requires budget { 0 < budget }
    ensures kinds { ⟦<Kit as Boxes>⟧.HasKinds kit.new }
    ensures says { IfSome (H.told host.old)
        (λ s. SaysPlan (dry_run_asked (reach (target_view target.entry)) budget s) s result) }
    ensures reads { OnlyReads H.told H.counts H.moment H.left_since H.goes_on host.old host.new }
    ensures cause { IfErr result (RefusesOrEnds (H.counts host.old) (H.counts host.new)) }
{
    test_target(alloc, target)?;
    let planning = prepare(alloc, target, budget, host)?;
    find_plan(alloc, kit, &planning)
}

/// Searches for a plan.
pub fn find_plan(alloc: Global, kit: &mut Kit, planning: &Planning) -> Result<Plan, Outcome>
    requires kinds { ⟦<Kit as Boxes>⟧.HasKinds kit.old }
    requires ready { IsReadyToSearch planning.now }
    ensures kinds { ⟦<Kit as Boxes>⟧.HasKinds kit.new }
    ensures answer { IsSolved planning.now result }
{
    let Planning {
        ctx,
        stored,
        goal,
        budget,
    } = planning;
    plan_between(alloc, kit, ctx, stored, goal, *budget)
}

/// Searches for a plan from what was loaded to a goal.
pub fn plan_between(
    alloc: Global,
    kit: &mut Kit,
    ctx: &Ctx,
    stored: &Stored,
    goal: &Config,
    budget: u32,
) -> Result<Plan, Outcome>
    requires kinds { ⟦<Kit as Boxes>⟧.HasKinds kit.old }
    requires ready { IsReadyToSearch (planning_between ctx.now stored.now goal.now budget) }
    ensures kinds { ⟦<Kit as Boxes>⟧.HasKinds kit.new }
    ensures answer { IsSolved (planning_between ctx.now stored.now goal.now budget) result }
{
    match first_plan(alloc, ctx, kit, &stored.config, goal, budget) {
        Ok(plan) => Ok(plan),
        Err(SearchError::Unorderable) => Err(Outcome::Unorderable),
        Err(SearchError::Budget(n)) => Err(Outcome::Budget { n }),
        Err(SearchError::Memory) => Err(Outcome::Memory),
    }
}
