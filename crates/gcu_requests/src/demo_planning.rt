//! What a plan between the two configurations of a demonstration needs.
ghost use Rattle.std.specs.Prelude.{◌≤◌, IfErr, IfOk};
ghost use Rattle.host_core.specs.Names.{longest_plain_name};
ghost use Rattle.move_core.specs.Contexts.{IsNamed};
ghost use Rattle.gcu_inputs.specs.Preparing.{Finds, Found, Refuses, RefusesAlways};
ghost use Rattle.gcu_inputs.specs.Reads.{OnlyReads};
ghost use Rattle.gcu_requests.specs.DemoAsked.{demo_planning_asked, generated_asked, generating_asked};
ghost use Rattle.gcu_requests.specs.ReadPlannings.{HasNothingToFold, IsReadyToSearch, planning_of};

use crate::judging::{End, judge};
use crate::plan_goal::judge_goal;
use crate::planning::Planning;
use conf_store::Stored;
use gcu_demo::make;
use gcu_inputs::{input_ctx, test_uninterrupted};
use gcu_output::Outcome;
use gcu_words::{DEFAULT_BUDGET, Demo};
use host_core::{Host, Names};
use move_core::Ctx;
use std::alloc::Global;

/// Reads what a demonstration needs, and generates its configurations.
pub fn prepare_demo<H: Host>(alloc: Global, size: Demo, host: &mut H) -> Result<Planning, Outcome>
    requires longest { longest_plain_name ≤ H.longest_name }
    ensures answer { Finds (H.told host.old) planning_of result
        (demo_planning_asked size.seed size.ports) }
    ensures ready { IfOk result IsReadyToSearch }
    ensures made { IfOk result (λ p. HasNothingToFold p.stored) }
    ensures reads { OnlyReads H.told H.counts H.moment H.left_since H.goes_on host.old host.new }
    ensures cause { IfErr result (Refuses (H.counts host.old) (H.counts host.new)) }
{
    test_uninterrupted(alloc, host)?;
    read_demo(alloc, size, host)
}

/// The same, where no change was stopped before its end.
fn read_demo<H: Host>(alloc: Global, size: Demo, host: &mut H) -> Result<Planning, Outcome>
    ensures answer { Finds (H.told host.old) planning_of result
        (generating_asked size.seed size.ports) }
    ensures ready { IfOk result IsReadyToSearch }
    ensures made { IfOk result (λ p. HasNothingToFold p.stored) }
    ensures reads { OnlyReads H.told H.counts H.moment H.left_since H.goes_on host.old host.new }
    ensures cause { IfErr result (Refuses (H.counts host.old) (H.counts host.new)) }
{
    let ctx = input_ctx(alloc, host)?;
    generate(alloc, ctx, size)
}

/// Generates the configurations of a demonstration, and judges them.
fn generate(alloc: Global, ctx: Ctx, size: Demo) -> Result<Planning, Outcome>
    requires named { IsNamed ctx }
    ensures answer { Found planning_of result (generated_asked size.seed size.ports ctx) }
    ensures ready { IfOk result IsReadyToSearch }
    ensures made { IfOk result (λ p. HasNothingToFold p.stored) }
    ensures cause { IfErr result RefusesAlways }
{
    let (start, goal) = make(alloc, size.seed, size.ports)?;
    judge(alloc, End::Start, &ctx, &start)?;
    let goal = judge_goal(alloc, &ctx, &start, goal)?;
    let stored = Stored {
        config: start,
        steps: Names::new(alloc),
        folded: false,
    };
    Ok(Planning {
        ctx,
        stored,
        goal,
        budget: DEFAULT_BUDGET,
    })
}
