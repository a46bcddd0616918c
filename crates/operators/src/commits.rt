//! The moves that operators have committed.
ghost use Rattle.std.specs.Prelude.{◌≡◌, IfOk};
ghost use Rattle.sessions.specs.Runs.{moves_of};

use host_core::Memory;
use move_core::Plan;
use sessions::Commits;
use std::alloc::Global;

/// The moves of commits in order.
pub fn moves_of(alloc: Global, commits: &Commits) -> Result<Plan, Memory>
    ensures { IfOk result (λ plan. plan ≡ moves_of commits.now) }
{
    let mut plan = Plan::new(alloc);
    for k in 0..commits.len() {
        plan.push(commits.at(k).mv.copy(alloc)?)?;
    }
    Ok(plan)
}
