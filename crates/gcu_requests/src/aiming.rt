//! What an operator aims at: what a patch makes of the configuration now, where a plan may have that for its goal.
ghost use Rattle.std.specs.Prelude.{IfErr, IfOk};
ghost use Rattle.move_core.specs.Contexts.{IsValidIn};
ghost use Rattle.patch_core.specs.Operation.{operations};
ghost use Rattle.gcu_inputs.specs.Preparing.{Found, RefusesAlways};
ghost use Rattle.gcu_requests.specs.SessionsAsked.{aim_asked};

use crate::patch_goal::patch_start;
use crate::plan_goal::judge_goal;
use conf_doc::Config;
use gcu_output::Outcome;
use move_core::Ctx;
use patch_core::Patch;
use std::alloc::Global;

/// The goal of a patch on a configuration, or the first refusal, as `apply-patch` has them.
pub fn aim(alloc: Global, ctx: &Ctx, patch: &Patch, now: &Config) -> Result<Config, Outcome>
    ensures answer { Found (λ c. c) result (aim_asked ctx.now (operations patch.now) now.now) }
    ensures valid { IfOk result (IsValidIn ctx.now) }
    ensures cause { IfErr result RefusesAlways }
{
    let goal = patch_start(alloc, patch, now)?;
    judge_goal(alloc, ctx, now, goal)
}
