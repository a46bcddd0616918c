//! `gcu check-plan PATCH PLAN`: whether the moves in an input are a plan for a patch.
ghost use Rattle.std.specs.Prelude.{◌≡◌, ◌≤◌, IfOk};
ghost use Rattle.host_core.specs.Names.{longest_plain_name};
ghost use Rattle.gcu_requests.specs.PlanCheckAsked.{check_plan_asked};
ghost use Rattle.command_answers.specs.Frames.{Does, FindsText};
ghost use Rattle.command_answers.specs.Summary.{yes_line};

use command_answers::answer_query;
use gcu_output::Outcome;
use gcu_requests::judge_plan;
use host_core::{Host, Memory, Txt};
use std::alloc::Global;

/// Says of how many steps a plan is, or where it is none. The folder stays as it is.
pub fn check_plan<H: Host>(alloc: Global, patch: &Txt, plan: &Txt, host: &mut H) -> Outcome
    requires { longest_plain_name ≤ H.longest_name }
    ensures { Does H.Host (check_plan_asked patch.now plan.now) host.old host.new result }
{
    let found = find_count(alloc, patch, plan, host);
    answer_query(alloc, found, host)
}

/// How many steps the plan has.
fn find_count<H: Host>(
    alloc: Global,
    patch: &Txt,
    plan: &Txt,
    host: &mut H,
) -> Result<Vec<u8>, Outcome>
    requires { longest_plain_name ≤ H.longest_name }
    ensures { FindsText H.Host (check_plan_asked patch.now plan.now) host.old host.new result }
{
    let count = judge_plan(alloc, patch, plan, host)?;
    let text = yes_text(alloc, count)?;
    Ok(text)
}

/// The line of so many steps.
fn yes_text(alloc: Global, count: usize) -> Result<Vec<u8>, Memory>
    ensures { IfOk result (λ b. b.items ≡ yes_line count) }
{
    let line = format!(in alloc; "yes {count}\n")?;
    Ok(line.into_bytes())
}
