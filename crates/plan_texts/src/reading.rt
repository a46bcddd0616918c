//! The text of a plan.
ghost use Rattle.std.specs.Prelude.{◌≡◌, ◌≤◌, ◌++◌, ℕ, List, length, MatchResult};
ghost use Rattle.move_core.specs.Operations.{count_line};
ghost use Rattle.plan_texts.specs.PlanTexts.{IsFaulty, IsPlanText, count_end, most_bytes};

use crate::PlanError;
use crate::counts::read_count;
use crate::ends::{End, end_of};
use crate::lines::split_line;
use crate::steps::read_step;
use move_core::Plan;
use std::alloc::Global;

/// Reads the text of a plan, as a dry run prints it: the count of its moves, and a line for each. The line
/// `done` may stand after them.
pub fn read_plan(alloc: Global, bytes: &[u8]) -> Result<Plan, PlanError>
    requires { length bytes.now ≤ most_bytes }
    ensures { MatchResult result (IsPlanText bytes.now) (IsFaulty bytes.now) }
{
    let Some((line, steps)) = split_line(bytes) else {
        return Err(PlanError::BadPlan { line: 1 });
    };
    match read_count(alloc, line)? {
        Some(count) => read_steps(alloc, count, steps),
        None => Err(PlanError::BadPlan { line: 1 }),
    }
}

/// The moves of the steps that follow the first line.
fn read_steps(alloc: Global, count: u32, steps: &[u8]) -> Result<Plan, PlanError>
    requires { length steps.now ≤ most_bytes }
    ensures { (text : List ℕ) → text ≡ count_line count ++ steps.now
        → MatchResult result (IsPlanText text) (IsFaulty text) }
{
    let mut plan = Plan::new(alloc);
    let mut rest = steps;
    for number in 0..count {
        let Some((line, after)) = split_line(rest) else {
            return Err(PlanError::BadPlan { line: number + 2 });
        };
        match read_step(alloc, number + 1, line)? {
            Some(mv) => plan.push(mv)?,
            None => return Err(PlanError::BadPlan { line: number + 2 }),
        }
        rest = after;
    }
    match end_of(rest) {
        End::Good => Ok(plan),
        End::Other => Err(PlanError::BadPlan { line: count + 2 }),
        End::More => Err(PlanError::BadPlan { line: count + 3 }),
    }
}
