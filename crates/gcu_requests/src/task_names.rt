//! Which tasks are by a name that no checkpoint has.
ghost use Rattle.std.specs.Prelude.{IfErr, OnOk};
ghost use Rattle.host_core.specs.Answers.{Gives};
ghost use Rattle.gcu_words.specs.FormView.{task_view};
ghost use Rattle.gcu_inputs.specs.Preparing.{RefusesAlways, refusal};
ghost use Rattle.gcu_requests.specs.ReadPlannings.{IsWellNamed};
ghost use Rattle.gcu_requests.specs.WorkAsked.{task_answer};

use crate::plan_goal::test_target;
use gcu_output::Outcome;
use gcu_words::Task;
use std::alloc::Global;

/// Refuses a name that no checkpoint has, where a plan is for a checkpoint.
pub fn test_task(alloc: Global, task: Task<'_>) -> Result<(), Outcome>
    ensures answer { Gives (λ _. task_view task.entry) refusal result
        (task_answer (task_view task.entry)) }
    ensures named { OnOk result (IsWellNamed (task_view task.entry)) }
    ensures cause { IfErr result RefusesAlways }
{
    match task {
        Task::Reach { target } => test_target(alloc, target),
        Task::RunScript { .. } => Ok(()),
    }
}
