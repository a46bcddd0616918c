//! What a command that plans needs.
ghost use Rattle.std.specs.Prelude.{◌≡◌, ◌≤◌, ◌<◌, None, IfErr, IfOk, IfSome};
ghost use Rattle.std.specs.List.{AllPass};
ghost use Rattle.host_core.specs.Names.{longest_plain_name};
ghost use Rattle.conf_doc.specs.WellFormed.{IsConfig};
ghost use Rattle.conf_store.specs.Files.{is_step_name};
ghost use Rattle.conf_store.specs.Folds.{StandsFor};
ghost use Rattle.move_core.specs.Contexts.{IsValidIn};
ghost use Rattle.gcu_words.specs.Views.{target_view};
ghost use Rattle.gcu_inputs.specs.IntentAsked.{gate_asked, uninterrupted};
ghost use Rattle.gcu_inputs.specs.Preparing.{Finds, Refuses};
ghost use Rattle.gcu_inputs.specs.Reads.{OnlyReads, ReadsFiles};
ghost use Rattle.gcu_requests.specs.PlanAsked.{needs_asked, planning_asked, start_asked};
ghost use Rattle.gcu_requests.specs.ReadPlannings.{HasGoodName, IsHeld, IsReadyToSearch, planning_of};

use crate::judging::{End, judge};
use crate::plan_goal::read_goal;
use conf_doc::Config;
use conf_store::Stored;
use gcu_inputs::{input_ctx, read_folder, read_interrupted, test_uninterrupted};
use gcu_output::Outcome;
use gcu_words::{Source, Target};
use host_core::Host;
use move_core::Ctx;
use std::alloc::Global;

/// What a plan is searched for: by what its moves are judged, from where, to where, and how many
/// configurations may be met.
#[derive(Drop)]
pub struct Planning {
    pub ctx: Ctx,
    pub stored: Stored,
    pub goal: Config,
    pub budget: u32,
}

/// Reads what a plan needs.
pub fn prepare<H: Host>(
    alloc: Global,
    target: Target<'_>,
    budget: u32,
    host: &mut H,
) -> Result<Planning, Outcome>
    requires longest { longest_plain_name ≤ H.longest_name }
    requires named { HasGoodName (target_view target) }
    requires budget { 0 < budget }
    ensures answer { Finds (H.told host.old) planning_of result
        (planning_asked (target_view target.entry) budget) }
    ensures ready { IfOk result IsReadyToSearch }
    ensures budget { IfOk result (λ p. p.budget ≡ budget) }
    ensures stands { IfOk result
        (λ p. IfSome (H.told host.old) (λ s. StandsFor p.stored s.files)) }
    ensures reads { OnlyReads H.told H.counts H.moment H.left_since H.goes_on host.old host.new }
    ensures cause { IfErr result (Refuses (H.counts host.old) (H.counts host.new)) }
{
    let held = pass_gate(alloc, target, host)?;
    read_needs(alloc, target, held, budget, host)
}

/// Refuses a change that was stopped before its end, or that there is none where one is to be resumed: then the
/// file of that change is read, and held until its goal is asked for.
fn pass_gate<H: Host>(
    alloc: Global,
    target: Target<'_>,
    host: &mut H,
) -> Result<Option<Vec<u8>>, Outcome>
    requires { longest_plain_name ≤ H.longest_name }
    ensures answer { Finds (H.told host.old) (λ _. tt) result
        (gate_asked (target_view target.entry)) }
    ensures held { IfOk result (IsHeld (target_view target.entry) (H.told host.old)) }
    ensures reads { ReadsFiles H.told H.counts H.moment H.left_since H.goes_on host.old host.new }
    ensures cause { IfErr result (Refuses (H.counts host.old) (H.counts host.new)) }
{
    match target.source {
        Source::Patch | Source::File | Source::Checkpoint => pass_unstopped(alloc, host),
        Source::Intent => read_interrupted(alloc, host),
    }
}

/// Refuses a change that was stopped before its end. Nothing is held then.
fn pass_unstopped<H: Host>(alloc: Global, host: &mut H) -> Result<Option<Vec<u8>>, Outcome>
    requires { longest_plain_name ≤ H.longest_name }
    ensures answer { Finds (H.told host.old) (λ _. tt) result uninterrupted }
    ensures held { IfOk result (λ held. held ≡ None) }
    ensures reads { ReadsFiles H.told H.counts H.moment H.left_since H.goes_on host.old host.new }
    ensures cause { IfErr result (Refuses (H.counts host.old) (H.counts host.new)) }
{
    test_uninterrupted(alloc, host)?;
    Ok(None)
}

/// Reads what a plan needs, whether a change is under way or not.
fn read_needs<H: Host>(
    alloc: Global,
    target: Target<'_>,
    held: Option<Vec<u8>>,
    budget: u32,
    host: &mut H,
) -> Result<Planning, Outcome>
    requires longest { longest_plain_name ≤ H.longest_name }
    requires named { HasGoodName (target_view target) }
    requires held { IsHeld (target_view target) (H.told host.old) held }
    requires budget { 0 < budget }
    ensures answer { Finds (H.told host.old) planning_of result
        (needs_asked (target_view target.entry) budget) }
    ensures ready { IfOk result IsReadyToSearch }
    ensures budget { IfOk result (λ p. p.budget ≡ budget) }
    ensures stands { IfOk result
        (λ p. IfSome (H.told host.old) (λ s. StandsFor p.stored s.files)) }
    ensures reads { OnlyReads H.told H.counts H.moment H.left_since H.goes_on host.old host.new }
    ensures cause { IfErr result (Refuses (H.counts host.old) (H.counts host.new)) }
{
    let ctx = input_ctx(alloc, host)?;
    let stored = read_start(alloc, &ctx, host)?;
    let goal = read_goal(alloc, target, held, &ctx, &stored.config, host)?;
    Ok(Planning {
        ctx,
        stored,
        goal,
        budget,
    })
}

/// What the folder stands for, where that is valid.
pub(crate) fn read_start<H: Host>(alloc: Global, ctx: &Ctx, host: &mut H) -> Result<Stored, Outcome>
    requires { longest_plain_name ≤ H.longest_name }
    ensures answer { Finds (H.told host.old) (λ what. what.config) result (start_asked ctx.now) }
    ensures stands { IfOk result
        (λ what. IfSome (H.told host.old) (λ s. StandsFor what s.files)) }
    ensures names { IfOk result (λ what. AllPass is_step_name what.steps) }
    ensures formed { IfOk result (λ what. IsConfig what.config) }
    ensures valid { IfOk result (λ what. IsValidIn ctx.now what.config) }
    ensures reads { ReadsFiles H.told H.counts H.moment H.left_since H.goes_on host.old host.new }
    ensures cause { IfErr result (Refuses (H.counts host.old) (H.counts host.new)) }
{
    let what = read_folder(alloc, host)?;
    judge(alloc, End::Start, ctx, &what.config)?;
    Ok(what)
}
