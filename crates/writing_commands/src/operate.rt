//! `gcu sessions SCRIPT`: what several operators do by a script, made ready to be done step by step.
ghost use Rattle.std.specs.Prelude.{◌≡◌, ◌≤◌, ◌<◌, false, IfErr, IfOk, IfSome};
ghost use Rattle.host_core.specs.Names.{longest_plain_name};
ghost use Rattle.gcu_output.specs.declared.outcomes.Outcome.TheVariants.{Memory as no_memory};
ghost use Rattle.gcu_words.specs.Tasks.{run_script};
ghost use Rattle.gcu_inputs.specs.Reads.{OnlyReads};
ghost use Rattle.gcu_requests.specs.ReadScripts.{IsReadyToOperate};
ghost use Rattle.gcu_requests.specs.WorkAsked.{work_asked};
ghost use Rattle.writing_commands.specs.Doing.{HasBytes, IsPrepared, IsReadyRun};
ghost use Rattle.command_answers.specs.PlanCommands.{RefusesOrEnds};

use crate::changing::{ReadyChange, ready_bytes};
use gcu_output::Outcome;
use gcu_requests::{Operating, prepare_script};
use host_core::{Host, Txt};
use move_core::{Boxes, Kit, listed_moves_are_defined};
use operators::{Operated, moves_of, operate};
use std::alloc::Global;

/// Runs a script in memory, and makes its commits ready, with nothing pending.
pub(crate) fn commits_settled<H: Host>(
    alloc: Global,
    script: &Txt,
    budget: u32,
    kit: &mut Kit,
    host: &mut H,
) -> Result<ReadyChange, Outcome>
    requires longest { longest_plain_name ≤ H.longest_name }
    requires kinds { ⟦<Kit as Boxes>⟧.HasKinds kit.old }
    requires budget { 0 < budget }
    ensures kinds { ⟦<Kit as Boxes>⟧.HasKinds kit.new }
    ensures prepared { IfSome (H.told host.old) (λ s.
        IsPrepared (work_asked (run_script script.now) budget s) s result) }
    ensures bytes { IfOk result HasBytes }
    ensures reads { OnlyReads H.told H.counts H.moment H.left_since H.goes_on host.old host.new }
    ensures cause { IfErr result (RefusesOrEnds (H.counts host.old) (H.counts host.new)) }
{
    let operating = prepare_script(alloc, script, budget, host)?;
    ready_commits(alloc, kit, operating)
}

/// The commits of a script that is ready, as a change.
fn ready_commits(alloc: Global, kit: &mut Kit, operating: Operating) -> Result<ReadyChange, Outcome>
    requires kinds { ⟦<Kit as Boxes>⟧.HasKinds kit.old }
    requires ready { IsReadyToOperate operating }
    ensures kinds { ⟦<Kit as Boxes>⟧.HasKinds kit.new }
    ensures run { IfOk result (IsReadyRun operating) }
    ensures bytes { IfOk result HasBytes }
    ensures err { IfErr result (λ e. e ≡ no_memory) }
{
    listed_moves_are_defined();
    let Operated {
        stored,
        world,
        text,
    } = operate(alloc, kit, operating)?;
    let plan = moves_of(alloc, world.commits())?;
    let ready = ready_bytes(alloc, &world.ctx().settings, &stored, &plan, text, false)?;
    Ok(ready)
}
