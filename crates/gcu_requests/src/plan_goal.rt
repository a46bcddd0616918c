//! The goal of a plan: what the target makes of the start, where a plan may end with that. It is the same for
//! all commands that plan but for where the target comes from, which has a file of its own for each of them.
ghost use Rattle.std.specs.Prelude.{◌≡◌, ◌≤◌, true, IfErr, IfOk, OnOk};
ghost use Rattle.host_core.specs.Answers.{Gives};
ghost use Rattle.host_core.specs.Names.{longest_plain_name};
ghost use Rattle.move_core.specs.Contexts.{AgreeElsewhere, IsValidIn};
ghost use Rattle.checkpoints.specs.Names.{is_good_name as is_name};
ghost use Rattle.gcu_words.specs.Views.{target_view};
ghost use Rattle.gcu_inputs.specs.Preparing.{Finds, Found, IsRightBy, Refuses, RefusesAlways, refusal};
ghost use Rattle.gcu_inputs.specs.Reads.{OnlyReads};
ghost use Rattle.gcu_requests.specs.PlanAsked.{HasKeys, IsElsewhereAs, goal_asked, judged_asked, made_asked, target_answer};
ghost use Rattle.gcu_requests.specs.ReadPlannings.{HasGoodName, IsHeld};
ghost use Rattle.gcu_requests.specs.PointAsked.{name_answer};

use crate::checkpoint_goal::checkpoint_goal;
use crate::empty_tables::empty_table;
use crate::file_goal::file_goal;
use crate::judging::{End, judge};
use crate::patch_goal::patch_goal;
use crate::tables_elsewhere::difference_elsewhere;
use checkpoints::is_good_name;
use conf_doc::Config;
use gcu_inputs::goal_held;
use gcu_output::Outcome;
use gcu_words::{Source, Target};
use host_core::{Host, Txt};
use move_core::Ctx;
use std::alloc::Global;

/// Refuses a name that no checkpoint has, where the target is a checkpoint.
pub fn test_target(alloc: Global, target: Target<'_>) -> Result<(), Outcome>
    ensures answer { Gives (λ _. target_view target.entry) refusal result
        (target_answer (target_view target.entry)) }
    ensures named { OnOk result (HasGoodName (target_view target.entry)) }
    ensures cause { IfErr result RefusesAlways }
{
    match target.source {
        Source::Patch | Source::File | Source::Intent => Ok(()),
        Source::Checkpoint => test_name(alloc, target.word),
    }
}

/// Refuses a name that no checkpoint has.
fn test_name(alloc: Global, name: &Txt) -> Result<(), Outcome>
    ensures answer { Gives (λ _. name.now) refusal result (name_answer name.now) }
    ensures named { OnOk result (is_name name.now ≡ true) }
    ensures cause { IfErr result RefusesAlways }
{
    if is_good_name(name.as_str()) {
        return Ok(());
    }
    let name = name.copy(alloc)?;
    Err(Outcome::BadName { name })
}

/// The goal of a plan from a start. It is the same on all tables without a model, has no table without keys
/// that has a model, and is valid.
pub(crate) fn read_goal<H: Host>(
    alloc: Global,
    target: Target<'_>,
    held: Option<Vec<u8>>,
    ctx: &Ctx,
    start: &Config,
    host: &mut H,
) -> Result<Config, Outcome>
    requires longest { longest_plain_name ≤ H.longest_name }
    requires named { HasGoodName (target_view target) }
    requires held { IsHeld (target_view target) (H.told host.old) held }
    ensures answer { Finds (H.told host.old) (λ c. c) result
        (goal_asked (target_view target.entry) ctx.now start.now) }
    ensures valid { IfOk result (IsValidIn ctx.now) }
    ensures elsewhere { IfOk result (AgreeElsewhere ctx.now start.now) }
    ensures reads { OnlyReads H.told H.counts H.moment H.left_since H.goes_on host.old host.new }
    ensures cause { IfErr result (Refuses (H.counts host.old) (H.counts host.new)) }
{
    let goal = make_goal(alloc, target, held, start, host)?;
    judge_goal(alloc, ctx, start, goal)
}

/// The configuration, where a plan from a start may have it for its goal.
pub(crate) fn judge_goal(
    alloc: Global,
    ctx: &Ctx,
    start: &Config,
    goal: Config,
) -> Result<Config, Outcome>
    ensures answer { Found (λ c. c) result (judged_asked ctx.now start.now goal) }
    ensures valid { IfOk result (IsValidIn ctx.now) }
    ensures elsewhere { IfOk result (AgreeElsewhere ctx.now start.now) }
    ensures cause { IfErr result RefusesAlways }
{
    test_elsewhere(alloc, ctx, start, &goal)?;
    test_keys(alloc, ctx, &goal)?;
    judge(alloc, End::Goal, ctx, &goal)?;
    Ok(goal)
}

/// What the target makes of the start.
fn make_goal<H: Host>(
    alloc: Global,
    target: Target<'_>,
    held: Option<Vec<u8>>,
    start: &Config,
    host: &mut H,
) -> Result<Config, Outcome>
    requires longest { longest_plain_name ≤ H.longest_name }
    requires named { HasGoodName (target_view target) }
    requires held { IsHeld (target_view target) (H.told host.old) held }
    ensures answer { Finds (H.told host.old) (λ c. c) result
        (made_asked (target_view target.entry) start.now) }
    ensures reads { OnlyReads H.told H.counts H.moment H.left_since H.goes_on host.old host.new }
    ensures cause { IfErr result (Refuses (H.counts host.old) (H.counts host.new)) }
{
    match target.source {
        Source::Patch => patch_goal(alloc, target.word, start, host),
        Source::File => file_goal(alloc, target.word, host),
        Source::Checkpoint => checkpoint_goal(alloc, target.word, host),
        Source::Intent => goal_held(alloc, held),
    }
}

/// Refuses the first table without a model that differs.
fn test_elsewhere(alloc: Global, ctx: &Ctx, start: &Config, goal: &Config) -> Result<(), Outcome>
    ensures answer { IsRightBy (λ u. u) result (IsElsewhereAs ctx.now start.now goal.now) }
    ensures agree { OnOk result (AgreeElsewhere ctx.now start.now goal.now) }
    ensures cause { IfErr result RefusesAlways }
{
    match difference_elsewhere(ctx, start, goal) {
        None => Ok(()),
        Some(table) => Err(Outcome::NoModel {
            table: Txt::new(alloc, table)?,
        }),
    }
}

/// Refuses the first table with a model that has no keys.
fn test_keys(alloc: Global, ctx: &Ctx, goal: &Config) -> Result<(), Outcome>
    ensures answer { IsRightBy (λ u. u) result (HasKeys ctx.now goal.now) }
    ensures cause { IfErr result RefusesAlways }
{
    match empty_table(ctx, goal) {
        None => Ok(()),
        Some(table) => Err(Outcome::EmptyTable {
            table: Txt::new(alloc, table)?,
        }),
    }
}
