//! `gcu apply-patch PATCH`, `gcu replace FILE`, `gcu rollback NAME` and `gcu resume`: a plan printed and then
//! done, step by step. `gcu sessions SCRIPT` does so what `operate.rt` makes ready.
ghost use Rattle.std.specs.Prelude.{◌≡◌, ◌≤◌, ◌<◌, ◌⊎◌, false, true, IfErr, IfOk, IfSome, length, map, option_map};
ghost use Rattle.std.specs.List.{AllPass};
ghost use Rattle.host_core.specs.Counts.{NoneFell, PrintMayRise};
ghost use Rattle.host_core.specs.Crashes.{Elapses, LeavesOnly, MayLeaveInPrint, MayLeaveNow};
ghost use Rattle.host_core.specs.Names.{longest_plain_name};
ghost use Rattle.host_core.specs.State.{settled, with_pending};
ghost use Rattle.conf_store.specs.Changes.{IsSettled};
ghost use Rattle.conf_store.specs.Files.{is_step_name, last_step};
ghost use Rattle.conf_store.specs.Folds.{StandsFor};
ghost use Rattle.change_apply.specs.Change.{AreDefined};
ghost use Rattle.move_core.specs.Operations.{plan_text as text_of};
ghost use Rattle.move_core.specs.Services.{services_of as services_tied};
ghost use Rattle.gcu_words.specs.Options.{most_budget};
ghost use Rattle.gcu_words.specs.Views.{target_view};
ghost use Rattle.gcu_output.specs.declared.outcomes.Outcome.TheVariants.{Memory as no_memory, Usage as usage};
ghost use Rattle.gcu_words.specs.FormView.{task_view};
ghost use Rattle.gcu_inputs.specs.Reads.{OnlyReads};
ghost use Rattle.gcu_words.specs.Tasks.{reach};
ghost use Rattle.gcu_requests.specs.ReadPlannings.{HasGoodName, IsReadyToSearch, IsWellNamed, planning_of};
ghost use Rattle.gcu_requests.specs.WorkAsked.{change_asked, settled_asked, work_asked};
ghost use Rattle.command_answers.specs.Answers.{HasCause, IsRefusal};
ghost use Rattle.command_answers.specs.Commands.{AnswersTo, CompleteTo, IsReady};
ghost use Rattle.command_answers.specs.Crashes.{LeftChanged, LeftSince};
ghost use Rattle.command_answers.specs.Commands.{LeftToChange, LeftToEarly};
ghost use Rattle.writing_commands.specs.Doing.{ClosesAs, EndsChange, EndsFrom, EndsWork, HasBytes, IsEnded, IsKept, IsPrepared, IsReadyIn, LeavesSettled, LeftDoing, change_by, is_over};
ghost use Rattle.command_answers.specs.PlanCommands.{RefusesOrEnds};
ghost use Rattle.command_answers.specs.Plannings.{IsPlanFor};

use crate::last_lines::{FaultLines, fault_lines};
use crate::operate::commits_settled;
use change_apply::{ApplyFault, Ready, close, prepare as prepare_change, run};
use checkpoints::points_are_in_other_files;
use command_answers::find_plan;
use conf_store::Stored;
use gcu_output::{DONE_LINE, Outcome, say};
use gcu_requests::{Planning, prepare, test_task};
use gcu_words::{Source, Target, Task};
use host_core::{Host, Memory, Sequence};
use move_core::{Boxes, Kit, Plan, Settings, listed_moves_are_defined, plan_text};
use std::alloc::Global;
use svc_rules::{Services, services_of};

/// A change with every byte that it writes and prints.
#[derive(Drop)]
pub(crate) struct ReadyChange {
    ready: Ready,
    /// What is printed before its steps.
    text: Vec<u8>,
    /// How many steps it has.
    steps: usize,
    /// Whether it has none, and closes a change that was stopped.
    closes: bool,
    lines: FaultLines,
}

/// Prints what a task does, and does it, step by step. A name that no checkpoint has is refused before anything
/// is settled.
pub fn change<H: Host>(
    alloc: Global,
    task: Task<'_>,
    budget: u32,
    kit: &mut Kit,
    host: &mut H,
) -> Outcome
    requires longest { longest_plain_name ≤ H.longest_name }
    requires kinds { ⟦<Kit as Boxes>⟧.HasKinds kit.old }
    requires budget { 0 < budget }
    requires most { budget ≤ most_budget }
    ensures kinds { ⟦<Kit as Boxes>⟧.HasKinds kit.new }
    ensures answers { AnswersTo (change_asked (task_view task.entry) budget)
        (H.told host.old) (H.told host.new) (H.counts host.old) (H.counts host.new) result }
    ensures cause { HasCause (H.counts host.old) (H.counts host.new) result }
    ensures counts { NoneFell (H.counts host.old) (H.counts host.new) }
    ensures crash { LeavesOnly H.moment H.left_since host.old host.new
        (LeftToChange (change_asked (task_view task.entry) budget) (H.told host.old)) }
    // After a refusal a crash leaves what was there while nothing was written.
    ensures early { IsRefusal result → LeavesOnly H.moment H.left_since host.old host.new
        (LeftToEarly (change_asked (task_view task.entry) budget) (H.told host.old)) }
    // Nothing is written; or what is pending is settled first, and what a crash leaves that it couldn't have left
    // before is left of the same host with nothing pending.
    ensures settles { LeavesOnly H.moment H.left_since host.old host.new
        (LeftToEarly (change_asked (task_view task.entry) budget) (H.told host.old))
        ⊎ LeavesSettled H.moment H.left_since host.old host.new (H.told host.old)
        (LeftToChange (change_asked (task_view task.entry) budget)) }
    ensures goes { H.goes_on host.old host.new }
    ensures form { result ≡ usage → ⊥ }
    ensures complete { CompleteTo (change_asked (task_view task.entry) budget)
        (H.told host.old) (H.counts host.old) (H.counts host.new) result }
{
    match test_task(alloc, task) {
        Ok(()) => change_named(alloc, task, budget, kit, host),
        Err(outcome) => say(alloc, outcome, host),
    }
}

/// The same of a task that isn't refused by a name. Once all is printed that stands before the steps no memory is
/// asked for.
fn change_named<H: Host>(
    alloc: Global,
    task: Task<'_>,
    budget: u32,
    kit: &mut Kit,
    host: &mut H,
) -> Outcome
    requires longest { longest_plain_name ≤ H.longest_name }
    requires named { IsWellNamed (task_view task) }
    requires kinds { ⟦<Kit as Boxes>⟧.HasKinds kit.old }
    requires budget { 0 < budget }
    requires most { budget ≤ most_budget }
    ensures kinds { ⟦<Kit as Boxes>⟧.HasKinds kit.new }
    ensures answers { AnswersTo (settled_asked (task_view task.entry) budget)
        (H.told host.old) (H.told host.new) (H.counts host.old) (H.counts host.new) result }
    ensures cause { HasCause (H.counts host.old) (H.counts host.new) result }
    ensures counts { NoneFell (H.counts host.old) (H.counts host.new) }
    ensures crash { LeavesOnly H.moment H.left_since host.old host.new
        (LeftToChange (settled_asked (task_view task.entry) budget) (H.told host.old)) }
    ensures early { IsRefusal result → LeavesOnly H.moment H.left_since host.old host.new
        (LeftToEarly (settled_asked (task_view task.entry) budget) (H.told host.old)) }
    ensures settles { LeavesOnly H.moment H.left_since host.old host.new
        (LeftToEarly (settled_asked (task_view task.entry) budget) (H.told host.old))
        ⊎ LeavesSettled H.moment H.left_since host.old host.new (H.told host.old)
        (LeftToChange (settled_asked (task_view task.entry) budget)) }
    ensures goes { H.goes_on host.old host.new }
    ensures form { result ≡ usage → ⊥ }
    ensures complete { CompleteTo (settled_asked (task_view task.entry) budget)
        (H.told host.old) (H.counts host.old) (H.counts host.new) result }
{
    match make_ready(alloc, task, budget, kit, host) {
        Ok(ready) => {
            points_are_in_other_files();
            do_change(&ready, host)
        }
        Err(outcome) => say(alloc, outcome, host),
    }
}

/// Settles what is pending, and makes a change ready.
fn make_ready<H: Host>(
    alloc: Global,
    task: Task<'_>,
    budget: u32,
    kit: &mut Kit,
    host: &mut H,
) -> Result<ReadyChange, Outcome>
    requires longest { longest_plain_name ≤ H.longest_name }
    requires named { IsWellNamed (task_view task) }
    requires kinds { ⟦<Kit as Boxes>⟧.HasKinds kit.old }
    requires budget { 0 < budget }
    requires most { budget ≤ most_budget }
    ensures kinds { ⟦<Kit as Boxes>⟧.HasKinds kit.new }
    ensures ready { IfOk result (λ ready. IfSome (H.told host.old) (λ s.
        IsReadyIn (work_asked (task_view task.entry) budget s) s ready)) }
    ensures bytes { IfOk result HasBytes }
    ensures told { IfOk result (λ _.
        H.told host.new ≡ option_map (with_pending settled) (H.told host.old)) }
    ensures there { IfOk result (λ ready. IfSome (H.told host.new) (λ s.
        IsReadyIn (work_asked (task_view task.entry) budget s) s ready)) }
    ensures time { IfOk result (λ _. Elapses H.moment H.left_since host.old host.new
        (MayLeaveNow (H.told host.new))) }
    ensures left { IfErr result (IsReady (settled_asked (task_view task.entry) budget)
        (H.told host.old) (H.told host.new)) }
    ensures kept { IfErr result (λ _. IsKept (H.told host.old) (H.told host.new)) }
    ensures cause { IfErr result (RefusesOrEnds (H.counts host.old) (H.counts host.new)) }
    ensures counts { NoneFell (H.counts host.old) (H.counts host.new) }
    ensures crash { LeavesOnly H.moment H.left_since host.old host.new
        (LeftToEarly (settled_asked (task_view task.entry) budget) (H.told host.old)) }
    ensures goes { H.goes_on host.old host.new }
{
    match host.settle() {
        Ok(()) => work_settled(alloc, task, budget, kit, host),
        Err(_) => Err(Outcome::DiskFault { step: 0 }),
    }
}

/// Makes a change ready, with nothing pending.
fn work_settled<H: Host>(
    alloc: Global,
    task: Task<'_>,
    budget: u32,
    kit: &mut Kit,
    host: &mut H,
) -> Result<ReadyChange, Outcome>
    requires longest { longest_plain_name ≤ H.longest_name }
    requires named { IsWellNamed (task_view task) }
    requires kinds { ⟦<Kit as Boxes>⟧.HasKinds kit.old }
    requires budget { 0 < budget }
    requires most { budget ≤ most_budget }
    ensures kinds { ⟦<Kit as Boxes>⟧.HasKinds kit.new }
    ensures prepared { IfSome (H.told host.old) (λ s.
        IsPrepared (work_asked (task_view task.entry) budget s) s result) }
    ensures bytes { IfOk result HasBytes }
    ensures reads { OnlyReads H.told H.counts H.moment H.left_since H.goes_on host.old host.new }
    ensures cause { IfErr result (RefusesOrEnds (H.counts host.old) (H.counts host.new)) }
{
    match task {
        Task::Reach { target } => plan_settled(alloc, target, budget, kit, host),
        Task::RunScript { script } => commits_settled(alloc, script, budget, kit, host),
    }
}

/// Makes the change of a plan ready, with nothing pending.
fn plan_settled<H: Host>(
    alloc: Global,
    target: Target<'_>,
    budget: u32,
    kit: &mut Kit,
    host: &mut H,
) -> Result<ReadyChange, Outcome>
    requires longest { longest_plain_name ≤ H.longest_name }
    requires named { HasGoodName (target_view target) }
    requires kinds { ⟦<Kit as Boxes>⟧.HasKinds kit.old }
    requires budget { 0 < budget }
    requires most { budget ≤ most_budget }
    ensures kinds { ⟦<Kit as Boxes>⟧.HasKinds kit.new }
    ensures prepared { IfSome (H.told host.old) (λ s.
        IsPrepared (work_asked (reach (target_view target.entry)) budget s) s result) }
    ensures bytes { IfOk result HasBytes }
    ensures reads { OnlyReads H.told H.counts H.moment H.left_since H.goes_on host.old host.new }
    ensures cause { IfErr result (RefusesOrEnds (H.counts host.old) (H.counts host.new)) }
{
    let planning = prepare(alloc, target, budget, host)?;
    let plan = find_plan(alloc, kit, &planning)?;
    let closes = closes_stopped(target, &plan);
    ready_change(alloc, &planning, &plan, closes)
}

/// Whether no step is left of a change that was stopped.
fn closes_stopped(target: Target<'_>, plan: &Plan) -> bool
    ensures { result ≡ is_over (target_view target.entry) plan.now }
{
    match target.source {
        Source::Patch | Source::File | Source::Checkpoint => false,
        Source::Intent => plan.len() == 0,
    }
}

/// Makes the change of a plan ready.
fn ready_change(
    alloc: Global,
    planning: &Planning,
    plan: &Plan,
    closes: bool,
) -> Result<ReadyChange, Outcome>
    requires ready { IsReadyToSearch planning.now }
    requires most { planning.now.budget ≤ most_budget }
    requires found { IsPlanFor (planning_of planning.now) plan.now }
    ensures change { IfOk result (λ r.
        r.ready ≡ change_by planning.now.ctx.settings planning.now.stored plan.now) }
    ensures text { IfOk result (λ r. r.text.items ≡ text_of plan.now) }
    ensures closes { IfOk result (λ r. r.closes ≡ closes) }
    ensures bytes { IfOk result HasBytes }
    ensures err { IfErr result (λ e. e ≡ no_memory) }
{
    listed_moves_are_defined();
    let text = plan_text(alloc, plan)?;
    let settings = &planning.ctx.settings;
    let ready = ready_bytes(alloc, settings, &planning.stored, plan, text, closes)?;
    Ok(ready)
}

/// Makes every byte of a change that does some moves: what it writes, and what it prints behind a text.
pub(crate) fn ready_bytes(
    alloc: Global,
    settings: &Settings,
    stored: &Stored,
    plan: &Plan,
    text: Vec<u8>,
    closes: bool,
) -> Result<ReadyChange, Memory>
    requires defined { AreDefined stored.now.config plan.now }
    requires few { length plan.now ≤ last_step }
    requires names { AllPass is_step_name stored.now.steps }
    ensures change { IfOk result (λ r. r.ready ≡ change_by settings.now stored.now plan.now) }
    ensures text { IfOk result (λ r. r.text.items ≡ text.items) }
    ensures closes { IfOk result (λ r. r.closes ≡ closes) }
    ensures bytes { IfOk result HasBytes }
{
    let services = plan_services(alloc, settings, plan)?;
    let ready = prepare_change(alloc, stored, plan, services.items(), settings)?;
    let lines = fault_lines(alloc, services.items(), settings)?;
    Ok(ReadyChange {
        ready,
        text,
        steps: plan.len(),
        closes,
        lines,
    })
}

/// The services of each move of a plan.
pub fn plan_services(
    alloc: Global,
    settings: &Settings,
    plan: &Plan,
) -> Result<Sequence<Services>, Memory>
    ensures { IfOk result (λ all. all ≡ map (services_tied settings.now) plan.now) }
{
    let mut all = Sequence::new(alloc);
    for k in 0..plan.len() {
        all.push(services_of(alloc, settings, plan.at(k))?)?;
    }
    Ok(all)
}

/// Prints what stands before the steps of a change, and does it.
fn do_change<H: Host>(change: &ReadyChange, host: &mut H) -> Outcome
    requires longest { longest_plain_name ≤ H.longest_name }
    requires clean { IfSome (H.told host.old) IsSettled }
    requires stands { IfSome (H.told host.old) (λ s. StandsFor change.now.ready.stored s.files) }
    requires closes { IfSome (H.told host.old)
        (λ s. ClosesAs change.now.closes change.now.ready s.files) }
    requires bytes { HasBytes change.now }
    ensures answers { EndsChange change.now.text.items change.now.ready
        (H.told host.old) (H.told host.new) (H.counts host.old) (H.counts host.new) result }
    ensures cause { HasCause (H.counts host.old) (H.counts host.new) result }
    ensures counts { NoneFell (H.counts host.old) (H.counts host.new) }
    ensures any_moment { IfSome (H.told host.old)
        (λ s. LeavesOnly H.moment H.left_since host.old host.new
        (LeftDoing change.now.text.items change.now.ready s)) }
    ensures later { H.moment host.old ≤ H.moment host.new }
    ensures goes { H.goes_on host.old host.new }
    ensures works { IsRefusal result → ⊥ }
    ensures form { result ≡ usage → ⊥ }
{
    match host.print(&change.text) {
        Ok(()) => finish_change(change, host),
        Err(_) => Outcome::PrintFault { step: 0 },
    }
}

/// Does a change, where all is printed that stands before its steps.
fn finish_change<H: Host>(change: &ReadyChange, host: &mut H) -> Outcome
    requires longest { longest_plain_name ≤ H.longest_name }
    requires clean { IfSome (H.told host.old) IsSettled }
    requires stands { IfSome (H.told host.old) (λ s. StandsFor change.now.ready.stored s.files) }
    requires closes { IfSome (H.told host.old)
        (λ s. ClosesAs change.now.closes change.now.ready s.files) }
    requires bytes { HasBytes change.now }
    ensures answers { EndsFrom change.now.ready
        (H.told host.old) (H.told host.new) (H.counts host.old) (H.counts host.new) result }
    ensures cause { HasCause (H.counts host.old) (H.counts host.new) result }
    ensures counts { NoneFell (H.counts host.old) (H.counts host.new) }
    ensures any_moment { IfSome (H.told host.old)
        (λ s. LeavesOnly H.moment H.left_since host.old host.new (LeftChanged change.now.ready s)) }
    ensures later { H.moment host.old ≤ H.moment host.new }
    ensures goes { H.goes_on host.old host.new }
    ensures works { IsRefusal result → ⊥ }
    ensures form { result ≡ usage → ⊥ }
{
    if change.closes {
        return close_stopped(change, host);
    }
    do_steps(change, host)
}

/// Removes `intent`, and ends a change without steps.
fn close_stopped<H: Host>(change: &ReadyChange, host: &mut H) -> Outcome
    requires longest { longest_plain_name ≤ H.longest_name }
    requires clean { IfSome (H.told host.old) IsSettled }
    requires stands { IfSome (H.told host.old) (λ s. StandsFor change.now.ready.stored s.files) }
    requires over { IfSome (H.told host.old) (λ s. ClosesAs true change.now.ready s.files) }
    requires bytes { HasBytes change.now }
    ensures answers { EndsFrom change.now.ready
        (H.told host.old) (H.told host.new) (H.counts host.old) (H.counts host.new) result }
    ensures cause { HasCause (H.counts host.old) (H.counts host.new) result }
    ensures counts { NoneFell (H.counts host.old) (H.counts host.new) }
    ensures any_moment { IfSome (H.told host.old)
        (λ s. LeavesOnly H.moment H.left_since host.old host.new (LeftChanged change.now.ready s)) }
    ensures later { H.moment host.old ≤ H.moment host.new }
    ensures goes { H.goes_on host.old host.new }
    ensures works { IsRefusal result → ⊥ }
    ensures form { result ≡ usage → ⊥ }
{
    match close(host) {
        Ok(()) => do_steps(change, host),
        Err(_) => {
            let line = change.lines.disk_line(0);
            end(Outcome::DiskFault { step: 0 }, line, 0, host)
        }
    }
}

/// Does the steps of a change.
fn do_steps<H: Host>(change: &ReadyChange, host: &mut H) -> Outcome
    requires longest { longest_plain_name ≤ H.longest_name }
    requires clean { IfSome (H.told host.old) IsSettled }
    requires stands { IfSome (H.told host.old) (λ s. StandsFor change.now.ready.stored s.files) }
    requires closed { IfSome (H.told host.old) (λ s. ClosesAs false change.now.ready s.files) }
    requires bytes { HasBytes change.now }
    ensures answers { EndsWork change.now.ready
        (H.told host.old) (H.told host.new) (H.counts host.old) (H.counts host.new) result }
    ensures cause { HasCause (H.counts host.old) (H.counts host.new) result }
    ensures counts { NoneFell (H.counts host.old) (H.counts host.new) }
    ensures any_moment { IfSome (H.told host.old)
        (λ s. LeavesOnly H.moment H.left_since host.old host.new
        (LeftSince change.now.ready s s)) }
    ensures later { H.moment host.old ≤ H.moment host.new }
    ensures goes { H.goes_on host.old host.new }
    ensures works { IsRefusal result → ⊥ }
    ensures form { result ≡ usage → ⊥ }
{
    match run(host, &change.ready) {
        Ok(()) => end(Outcome::Done, DONE_LINE, change.steps, host),
        Err(ApplyFault::Disk { step }) => {
            let line = change.lines.disk_line(step);
            end(Outcome::DiskFault { step }, line, step, host)
        }
        Err(ApplyFault::Service { step, service }) => {
            let line = change.lines.service_line(step, service);
            end(Outcome::ServiceFault { step, service }, line, step, host)
        }
        Err(ApplyFault::Print { step }) => Outcome::PrintFault { step },
    }
}

/// Prints the last line of an outcome behind so many acknowledgements.
pub fn end<H: Host>(outcome: Outcome, line: &[u8], step: usize, host: &mut H) -> Outcome
    ensures ended { IsEnded outcome line.now step
        (H.told host.old) (H.told host.new) (H.counts host.old) (H.counts host.new) result }
    ensures counts { PrintMayRise (H.counts host.old) (H.counts host.new) }
    ensures time { Elapses H.moment H.left_since host.old host.new
        (MayLeaveInPrint line.now (H.told host.old)) }
    ensures goes { H.goes_on host.old host.new }
{
    match host.print(line) {
        Ok(()) => outcome,
        Err(_) => Outcome::PrintFault { step },
    }
}
