//! Whether moves are a plan.
ghost use Rattle.std.specs.Prelude.{◌<◌, MatchResult, length};
ghost use Rattle.move_core.specs.Contexts.{IsNamed, rulebook};
ghost use Rattle.move_core.specs.Plans.{IsPlan};
ghost use Rattle.plan_check.specs.Checks.{IsRefused, most_steps};

use crate::steps::{Verdict, judge};
use crate::{CheckError, NoWhy};
use conf_doc::Config;
use move_core::{Ctx, Plan};
use std::alloc::Global;

/// Whether moves are a plan from start to goal: each is allowed where it stands, and the last one leads to
/// goal. Otherwise the first step at fault, and why.
pub fn check_plan(
    alloc: Global,
    ctx: &Ctx,
    start: &Config,
    goal: &Config,
    plan: &Plan,
) -> Result<(), CheckError>
    requires named { IsNamed ctx.now }
    requires few { length plan.now < most_steps }
    ensures { let book = rulebook ctx.now in
        MatchResult result (λ _. IsPlan book start.now goal.now plan.now)
        (IsRefused book start.now goal.now plan.now) }
{
    let moves = plan.items();
    let mut cur = start.copy(alloc)?;
    let mut is_known = false;
    for i in 0..moves.len() {
        match judge(alloc, ctx, is_known, &cur, goal, &moves[i])? {
            Verdict::Allowed(next) => {
                cur = next;
                is_known = true;
            }
            Verdict::Refused(why) => {
                let step = i as u32 + 1;
                return Err(CheckError::No { step, why });
            }
        }
    }
    if cur.same(goal) {
        return Ok(());
    }
    Err(CheckError::No {
        step: moves.len() as u32,
        why: NoWhy::WrongEnd,
    })
}
