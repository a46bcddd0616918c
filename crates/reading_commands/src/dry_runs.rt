//! `gcu apply-patch PATCH --dry-run`, and `replace FILE`, `rollback NAME` and `sessions SCRIPT` so: what would be
//! done.
ghost use Rattle.std.specs.Prelude.{◌≤◌, ◌<◌};
ghost use Rattle.host_core.specs.Names.{longest_plain_name};
ghost use Rattle.gcu_words.specs.FormView.{task_view};
ghost use Rattle.gcu_words.specs.Tasks.{reach, run_script};
ghost use Rattle.gcu_words.specs.Views.{target_view};
ghost use Rattle.gcu_requests.specs.WorkAsked.{dry_run_asked};
ghost use Rattle.command_answers.specs.Frames.{Does, FindsText};

use command_answers::{answer_query, solve};
use gcu_output::Outcome;
use gcu_requests::prepare_script;
use gcu_words::{Target, Task};
use host_core::{Host, Txt};
use move_core::{Boxes, Kit, plan_text};
use operators::{Operated, operate};
use std::alloc::Global;

/// Prints what a task would do. The folder stays as it is.
pub fn dry_run<H: Host>(
    alloc: Global,
    task: Task<'_>,
    budget: u32,
    kit: &mut Kit,
    host: &mut H,
) -> Outcome
    requires longest { longest_plain_name ≤ H.longest_name }
    requires kinds { ⟦<Kit as Boxes>⟧.HasKinds kit.old }
    requires budget { 0 < budget }
    ensures kinds { ⟦<Kit as Boxes>⟧.HasKinds kit.new }
    ensures does { Does H.Host (dry_run_asked (task_view task.entry) budget)
        host.old host.new result }
{
    let found = find_work(alloc, task, budget, kit, host);
    answer_query(alloc, found, host)
}

/// What stands before the first step of a task that is done.
fn find_work<H: Host>(
    alloc: Global,
    task: Task<'_>,
    budget: u32,
    kit: &mut Kit,
    host: &mut H,
) -> Result<Vec<u8>, Outcome>
    requires longest { longest_plain_name ≤ H.longest_name }
    requires kinds { ⟦<Kit as Boxes>⟧.HasKinds kit.old }
    requires budget { 0 < budget }
    ensures kinds { ⟦<Kit as Boxes>⟧.HasKinds kit.new }
    ensures finds { FindsText H.Host (dry_run_asked (task_view task.entry) budget)
        host.old host.new result }
{
    match task {
        Task::Reach { target } => find_way(alloc, target, budget, kit, host),
        Task::RunScript { script } => rehearse(alloc, script, budget, kit, host),
    }
}

/// The text of a plan for a target.
fn find_way<H: Host>(
    alloc: Global,
    target: Target<'_>,
    budget: u32,
    kit: &mut Kit,
    host: &mut H,
) -> Result<Vec<u8>, Outcome>
    requires longest { longest_plain_name ≤ H.longest_name }
    requires kinds { ⟦<Kit as Boxes>⟧.HasKinds kit.old }
    requires budget { 0 < budget }
    ensures kinds { ⟦<Kit as Boxes>⟧.HasKinds kit.new }
    ensures finds { FindsText H.Host (dry_run_asked (reach (target_view target.entry)) budget)
        host.old host.new result }
{
    let plan = solve(alloc, target, budget, kit, host)?;
    let text = plan_text(alloc, &plan)?;
    Ok(text)
}

/// What the operators of a script are told, and how many commits they make.
fn rehearse<H: Host>(
    alloc: Global,
    script: &Txt,
    budget: u32,
    kit: &mut Kit,
    host: &mut H,
) -> Result<Vec<u8>, Outcome>
    requires longest { longest_plain_name ≤ H.longest_name }
    requires kinds { ⟦<Kit as Boxes>⟧.HasKinds kit.old }
    requires budget { 0 < budget }
    ensures kinds { ⟦<Kit as Boxes>⟧.HasKinds kit.new }
    ensures finds { FindsText H.Host (dry_run_asked (run_script script.now) budget)
        host.old host.new result }
{
    let operating = prepare_script(alloc, script, budget, host)?;
    let Operated { text, .. } = operate(alloc, kit, operating)?;
    Ok(text)
}
