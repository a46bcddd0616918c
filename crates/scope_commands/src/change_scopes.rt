//! `gcu apply-scopes PATCH`: the plans of all scopes printed, and then done scope after scope.
ghost use Rattle.std.specs.Prelude.{◌≡◌, ◌≤◌, ◌<◌, ◌++◌, IfErr, IfOk, IfSome, OnOk, flat_map, map};
ghost use Rattle.host_core.specs.Counts.{NoneFell};
ghost use Rattle.host_core.specs.Names.{longest_scoped_name};
ghost use Rattle.host_core.specs.State.{settled};
ghost use Rattle.conf_store.specs.Changes.{IsSettled};
ghost use Rattle.move_core.specs.Services.{services_of as services_tied};
ghost use Rattle.gcu_words.specs.Options.{most_budget};
ghost use Rattle.scope_changes.specs.Crashes.{LeavesSince};
ghost use Rattle.scope_changes.specs.Ends.{AreReadyFor};
ghost use Rattle.scope_changes.specs.Works.{AreInOrder};
ghost use Rattle.gcu_output.specs.Lines.{last_line};
ghost use Rattle.gcu_output.specs.declared.outcomes.Outcome.TheVariants.{Usage as usage};
ghost use Rattle.gcu_inputs.specs.Preparing.{AreFound, Refuses};
ghost use Rattle.gcu_words.specs.ScopesForm.{scopes_view};
ghost use Rattle.gcu_requests.specs.ScopesPlannings.{AreReady, IsReadyBetween, IsStill, plan_in, plans_of};
ghost use Rattle.command_answers.specs.Answers.{HasCause, IsRefusal, Says};
ghost use Rattle.command_answers.specs.Plannings.{IsPlanFor};
ghost use Rattle.scope_commands.specs.ReadyScopes.{HasAllBytes, work_by, works_by};
ghost use Rattle.scope_commands.specs.ScopeCrashes.{LeftAmongScopes, LeftDoingScopes};
ghost use Rattle.scope_commands.specs.ScopeEndings.{AreClosed, EndsScopes, EndsWorks};
ghost use Rattle.command_answers.specs.ScopeTexts.{solved_asked};
ghost use Rattle.scope_commands.specs.ScopeWorks.{AreWorks, refused_asked};
ghost use Rattle.scope_commands.specs.SeveralScopes.{DoesPlans};
ghost use Rattle.scope_commands.specs.SolvedScopes.{scope_plan};

use crate::plan_scopes::{ScopePlan, find_plans, plans_text};
use change_apply::{ApplyFault, prepare as prepare_change};
use gcu_output::{DONE_LINE, Outcome, say};
use gcu_requests::{ScopeEnds, ScopesPlanning, prepare_scopes};
use gcu_words::ScopesForm;
use host_core::{Host, Memory, Sequence, Txt};
use move_core::{Boxes, Kit, Plan, Settings, listed_moves_are_defined};
use scope_changes::{ScopeChange, run_scopes};
use std::alloc::Global;
use svc_rules::{Services, services_of};
use writing_commands::{FaultLines, end, fault_lines, plan_services};

/// The changes of all scopes with every byte that they write and print.
#[derive(Drop)]
pub(crate) struct ReadyScopes {
    changes: Sequence<ScopeChange>,
    /// The text of their plans.
    text: Vec<u8>,
    /// How many steps they have.
    steps: usize,
    /// The lines of their faults, which count the steps of all scopes.
    lines: FaultLines,
}

/// Prints the plans of all scopes, and does them, with nothing pending. All is ready before the first write.
pub(crate) fn change_settled<H: Host>(
    alloc: Global,
    change: ScopesForm<'_>,
    kit: &mut Kit,
    host: &mut H,
) -> Outcome
    requires longest { longest_scoped_name ≤ H.longest_name }
    requires kinds { ⟦<Kit as Boxes>⟧.HasKinds kit.old }
    requires clean { IfSome (H.told host.old) (λ s. s.pending ≡ settled) }
    ensures kinds { ⟦<Kit as Boxes>⟧.HasKinds kit.new }
    ensures does { DoesPlans H.told H.counts H.moment H.left_since (scopes_view change.entry)
        host.old host.new result }
    ensures cause { HasCause (H.counts host.old) (H.counts host.new) result }
    ensures counts { NoneFell (H.counts host.old) (H.counts host.new) }
    ensures goes { H.goes_on host.old host.new }
    ensures form { result ≡ usage → ⊥ }
{
    match make_ready(alloc, change.patch, change.options.budget, kit, host) {
        Ok(ready) => do_scopes(&ready, host),
        Err(outcome) => say(alloc, outcome, host),
    }
}

/// Makes the changes of all scopes ready. The folder stays as it is.
fn make_ready<H: Host>(
    alloc: Global,
    patch: &Txt,
    budget: u32,
    kit: &mut Kit,
    host: &mut H,
) -> Result<ReadyScopes, Outcome>
    requires longest { longest_scoped_name ≤ H.longest_name }
    requires kinds { ⟦<Kit as Boxes>⟧.HasKinds kit.old }
    requires clean { IfSome (H.told host.old) (λ s. s.pending ≡ settled) }
    requires budget { 0 < budget }
    requires most { budget ≤ most_budget }
    ensures kinds { ⟦<Kit as Boxes>⟧.HasKinds kit.new }
    ensures works { IfOk result (λ ready. IfSome (H.told host.old) (λ s.
        AreWorks patch.now budget s ready.changes)) }
    ensures order { IfOk result (λ ready. AreInOrder ready.changes) }
    ensures bytes { IfOk result HasAllBytes }
    ensures refused { IfErr result (λ e. IfSome (H.told host.old) (λ s.
        Says (refused_asked patch.now budget s) s s e (last_line e))) }
    ensures still { IsStill H.told H.moment H.left_since host.old host.new }
    ensures counts { NoneFell (H.counts host.old) (H.counts host.new) }
    ensures cause { IfErr result (Refuses (H.counts host.old) (H.counts host.new)) }
    ensures goes { H.goes_on host.old host.new }
{
    let all = prepare_scopes(alloc, patch, budget, host)?;
    let plans = find_plans(alloc, kit, &all)?;
    match ready_bytes(alloc, &all, &plans) {
        Ok(ready) => Ok(ready),
        Err(Memory) => Err(Outcome::Memory),
    }
}

/// Makes every byte that the plans of all scopes write and print.
fn ready_bytes(
    alloc: Global,
    all: &ScopesPlanning,
    plans: &Sequence<ScopePlan>,
) -> Result<ReadyScopes, Memory>
    requires ready { AreReady all.now.ctx all.now.scopes }
    requires found { AreFound scope_plan solved_asked (plans_of all.now) plans.now }
    requires most { all.now.budget ≤ most_budget }
    ensures changes { IfOk result (λ ready.
        ready.changes ≡ works_by all.now.ctx.settings all.now.scopes plans.now) }
    ensures bytes { IfOk result HasAllBytes }
{
    let settings = &all.ctx.settings;
    let changes = ready_changes(alloc, all, plans)?;
    let services = all_services(alloc, settings, plans)?;
    let lines = fault_lines(alloc, services.items(), settings)?;
    let text = plans_text(alloc, plans)?;
    Ok(ReadyScopes {
        changes,
        text,
        steps: services.len(),
        lines,
    })
}

/// The change of each scope, in order.
fn ready_changes(
    alloc: Global,
    all: &ScopesPlanning,
    plans: &Sequence<ScopePlan>,
) -> Result<Sequence<ScopeChange>, Memory>
    requires ready { AreReady all.now.ctx all.now.scopes }
    requires found { AreFound scope_plan solved_asked (plans_of all.now) plans.now }
    requires most { all.now.budget ≤ most_budget }
    ensures { IfOk result (λ changes.
        changes ≡ works_by all.now.ctx.settings all.now.scopes plans.now) }
{
    let mut changes = Sequence::new(alloc);
    for i in 0..all.scopes.len() {
        let from = all.scopes.at(i);
        let plan = plans.at(i);
        let change = ready_change(alloc, all, from, plan)?;
        changes.push(change)?;
    }
    Ok(changes)
}

/// The change of a scope by its plan.
fn ready_change(
    alloc: Global,
    all: &ScopesPlanning,
    from: &ScopeEnds,
    plan: &ScopePlan,
) -> Result<ScopeChange, Memory>
    requires ready { IsReadyBetween all.now.ctx from.now.ends }
    requires found { IsPlanFor (plan_in all.now.ctx all.now.budget from.now.ends) plan.now.plan }
    requires most { all.now.budget ≤ most_budget }
    ensures { IfOk result (λ change. change ≡ work_by all.now.ctx.settings from.now plan.now) }
{
    listed_moves_are_defined();
    let settings = &all.ctx.settings;
    let plan = &plan.plan;
    let services = plan_services(alloc, settings, plan)?;
    let ready = prepare_change(alloc, &from.ends.stored, plan, services.items(), settings)?;
    ScopeChange::new(alloc, from.scope, ready)
}

/// The services of each move of all plans, in order.
fn all_services(
    alloc: Global,
    settings: &Settings,
    plans: &Sequence<ScopePlan>,
) -> Result<Sequence<Services>, Memory>
    ensures { IfOk result (λ all.
        all ≡ flat_map (λ p. map (services_tied settings.now) p.plan) plans.now) }
{
    let mut all = Sequence::new(alloc);
    for plan in plans.items() {
        push_services(alloc, settings, &plan.plan, &mut all)?;
    }
    Ok(all)
}

/// Adds the services of each move of a plan.
fn push_services(
    alloc: Global,
    settings: &Settings,
    plan: &Plan,
    all: &mut Sequence<Services>,
) -> Result<(), Memory>
    ensures { OnOk result (all.new ≡ all.old ++ map (services_tied settings.now) plan.now) }
{
    for k in 0..plan.len() {
        all.push(services_of(alloc, settings, plan.at(k))?)?;
    }
    Ok(())
}

/// Prints the plans of all scopes, and does them.
fn do_scopes<H: Host>(ready: &ReadyScopes, host: &mut H) -> Outcome
    requires longest { longest_scoped_name ≤ H.longest_name }
    requires clean { IfSome (H.told host.old) IsSettled }
    requires order { AreInOrder ready.now.changes }
    requires stands { IfSome (H.told host.old) (λ s. AreReadyFor ready.now.changes s.files) }
    requires closed { IfSome (H.told host.old) (λ s. AreClosed ready.now.changes s.files) }
    requires bytes { HasAllBytes ready.now }
    ensures answers { EndsScopes ready.now.changes
        (H.told host.old) (H.told host.new) (H.counts host.old) (H.counts host.new) result }
    ensures cause { HasCause (H.counts host.old) (H.counts host.new) result }
    ensures counts { NoneFell (H.counts host.old) (H.counts host.new) }
    ensures any_moment { IfSome (H.told host.old) (λ s.
        LeavesSince H.moment H.left_since host.old host.new s
        (LeftDoingScopes ready.now.changes s)) }
    ensures later { H.moment host.old ≤ H.moment host.new }
    ensures goes { H.goes_on host.old host.new }
    ensures works { IsRefusal result → ⊥ }
    ensures form { result ≡ usage → ⊥ }
{
    match host.print(&ready.text) {
        Ok(()) => do_works(ready, host),
        Err(_) => Outcome::PrintFault { step: 0 },
    }
}

/// Does the changes of all scopes, whose plans are printed.
fn do_works<H: Host>(ready: &ReadyScopes, host: &mut H) -> Outcome
    requires longest { longest_scoped_name ≤ H.longest_name }
    requires clean { IfSome (H.told host.old) IsSettled }
    requires order { AreInOrder ready.now.changes }
    requires stands { IfSome (H.told host.old) (λ s. AreReadyFor ready.now.changes s.files) }
    requires closed { IfSome (H.told host.old) (λ s. AreClosed ready.now.changes s.files) }
    requires bytes { HasAllBytes ready.now }
    ensures answers { EndsWorks ready.now.changes
        (H.told host.old) (H.told host.new) (H.counts host.old) (H.counts host.new) result }
    ensures cause { HasCause (H.counts host.old) (H.counts host.new) result }
    ensures counts { NoneFell (H.counts host.old) (H.counts host.new) }
    ensures any_moment { IfSome (H.told host.old) (λ s.
        LeavesSince H.moment H.left_since host.old host.new s
        (LeftAmongScopes ready.now.changes s)) }
    ensures later { H.moment host.old ≤ H.moment host.new }
    ensures goes { H.goes_on host.old host.new }
    ensures works { IsRefusal result → ⊥ }
    ensures form { result ≡ usage → ⊥ }
{
    match run_scopes(host, &ready.changes) {
        Ok(()) => end(Outcome::Done, DONE_LINE, ready.steps, host),
        Err(ApplyFault::Disk { step }) => {
            let line = ready.lines.disk_line(step);
            end(Outcome::DiskFault { step }, line, step, host)
        }
        Err(ApplyFault::Service { step, service }) => {
            let line = ready.lines.service_line(step, service);
            end(Outcome::ServiceFault { step, service }, line, step, host)
        }
        Err(ApplyFault::Print { step }) => Outcome::PrintFault { step },
    }
}
