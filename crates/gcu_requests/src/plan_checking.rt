//! `gcu check-plan PATCH PLAN`: whether an input holds a plan for a patch, and where it doesn't.
ghost use Rattle.std.specs.Prelude.{◌≤◌, ◌<◌, IfErr, IfOk, length};
ghost use Rattle.host_core.specs.Names.{longest_plain_name};
ghost use Rattle.move_core.specs.Contexts.{IsNamed};
ghost use Rattle.plan_check.specs.Checks.{most_steps};
ghost use Rattle.plan_texts.specs.PlanTexts.{most_bytes};
ghost use Rattle.gcu_inputs.specs.Preparing.{Finds, IsRightBy, Refuses, RefusesAlways};
ghost use Rattle.gcu_inputs.specs.Reads.{OnlyReads, ReadsInputs};
ghost use Rattle.gcu_requests.specs.PlanCheckAsked.{IsAccepted, IsPlanIn, check_plan_asked, checking_asked, moves_asked};
ghost use Rattle.gcu_requests.specs.Request.{accept_plan};

use crate::plan_goal::read_goal;
use crate::planning::read_start;
use conf_doc::Config;
use gcu_inputs::{input_bytes, input_ctx, test_uninterrupted};
use gcu_output::Outcome;
use gcu_words::{Source, Target};
use host_core::{Host, Txt};
use move_core::{Ctx, Plan};
use plan_check::{CheckError, PlanError, check_plan, read_plan};
use std::alloc::Global;

/// How many bytes a plan may have.
const PLAN_LIMIT: u64 = 4_194_304;

/// How many steps the plan in an input has, where it is one for the patch in another.
pub fn judge_plan<H: Host>(
    alloc: Global,
    patch: &Txt,
    plan: &Txt,
    host: &mut H,
) -> Result<usize, Outcome>
    requires { longest_plain_name ≤ H.longest_name }
    ensures answer { Finds (H.told host.old) accept_plan result
        (check_plan_asked patch.now plan.now) }
    ensures reads { OnlyReads H.told H.counts H.moment H.left_since H.goes_on host.old host.new }
    ensures cause { IfErr result (Refuses (H.counts host.old) (H.counts host.new)) }
{
    test_uninterrupted(alloc, host)?;
    judge_inputs(alloc, patch, plan, host)
}

/// The same, where no change was stopped before its end. All that a plan for the patch needs is read before the
/// plan, and nothing is searched for.
fn judge_inputs<H: Host>(
    alloc: Global,
    patch: &Txt,
    plan: &Txt,
    host: &mut H,
) -> Result<usize, Outcome>
    requires { longest_plain_name ≤ H.longest_name }
    ensures answer { Finds (H.told host.old) accept_plan result
        (checking_asked patch.now plan.now) }
    ensures reads { OnlyReads H.told H.counts H.moment H.left_since H.goes_on host.old host.new }
    ensures cause { IfErr result (Refuses (H.counts host.old) (H.counts host.new)) }
{
    let ctx = input_ctx(alloc, host)?;
    let stored = read_start(alloc, &ctx, host)?;
    let target = Target {
        source: Source::Patch,
        word: patch,
    };
    let goal = read_goal(alloc, target, None, &ctx, &stored.config, host)?;
    let moves = input_plan(alloc, plan, host)?;
    accept(alloc, &ctx, &stored.config, &goal, &moves)
}

/// The moves that an input holds.
fn input_plan<H: Host>(alloc: Global, path: &Txt, host: &mut H) -> Result<Plan, Outcome>
    ensures answer { Finds (H.told host.old) (λ ms. ms) result (moves_asked path.now) }
    ensures few { IfOk result (λ ms. length ms < most_steps) }
    ensures reads { ReadsInputs H.told H.counts H.moment H.left_since H.goes_on host.old host.new }
    ensures cause { IfErr result (Refuses (H.counts host.old) (H.counts host.new)) }
{
    let bytes = input_bytes(alloc, path, PLAN_LIMIT, host)?;
    plan_in(alloc, path, bytes.items())
}

/// The moves whose text bytes are that were found at a path.
fn plan_in(alloc: Global, path: &Txt, bytes: &[u8]) -> Result<Plan, Outcome>
    requires { length bytes.now ≤ most_bytes }
    ensures answer { IsRightBy (λ ms. ms) result (IsPlanIn path.now bytes.now) }
    ensures few { IfOk result (λ ms. length ms < most_steps) }
    ensures cause { IfErr result RefusesAlways }
{
    match read_plan(alloc, bytes) {
        Ok(plan) => Ok(plan),
        Err(PlanError::BadPlan { line }) => Err(Outcome::BadPlan {
            path: path.copy(alloc)?,
            line,
        }),
        Err(PlanError::Memory) => Err(Outcome::Memory),
    }
}

/// How many steps moves have, where they are a plan.
fn accept(
    alloc: Global,
    ctx: &Ctx,
    start: &Config,
    goal: &Config,
    moves: &Plan,
) -> Result<usize, Outcome>
    requires named { IsNamed ctx.now }
    requires few { length moves.now < most_steps }
    ensures answer { IsRightBy accept_plan result
        (IsAccepted ctx.now start.now goal.now moves.now) }
    ensures cause { IfErr result RefusesAlways }
{
    match check_plan(alloc, ctx, start, goal, moves) {
        Ok(()) => Ok(moves.len()),
        Err(CheckError::No { step, why }) => Err(Outcome::PlanRejected { step, why }),
        Err(CheckError::Memory) => Err(Outcome::Memory),
    }
}
