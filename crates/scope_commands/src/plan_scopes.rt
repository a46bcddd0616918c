//! `gcu apply-scopes PATCH --dry-run`: the plans by which the scopes of a patch are changed.
ghost use Rattle.std.specs.Prelude.{◌≡◌, ◌≤◌, ◌<◌, ◌++◌, map, IfErr, IfOk, IfSome, OnOk};
ghost use Rattle.host_core.specs.Counts.{NoneFell, PrintMayRise};
ghost use Rattle.host_core.specs.Crashes.{Elapses};
ghost use Rattle.host_core.specs.Names.{longest_scoped_name};
ghost use Rattle.host_core.specs.State.{settled};
ghost use Rattle.move_core.specs.Operations.{plan_text as text_of_plan};
ghost use Rattle.gcu_output.specs.Lines.{last_line};
ghost use Rattle.gcu_output.specs.Printing.{LeftInText, IsSaid};
ghost use Rattle.gcu_output.specs.declared.outcomes.Outcome.TheVariants.{Done as done, Usage as usage};
ghost use Rattle.gcu_inputs.specs.Asking.{of_each};
ghost use Rattle.gcu_inputs.specs.Preparing.{Finds, Found, Refuses, RefusesAlways};
ghost use Rattle.gcu_words.specs.ScopesForm.{scopes_view};
ghost use Rattle.gcu_requests.specs.ScopesPlannings.{AreReady, IsReadyBetween, IsStill, plans_of, scope_planning};
ghost use Rattle.command_answers.specs.Answers.{HasCause};
ghost use Rattle.command_answers.specs.ScopeTexts.{scope_line, scopes_solved, scopes_text, solved_asked};
ghost use Rattle.scope_commands.specs.SeveralScopes.{PrintsPlans};
ghost use Rattle.scope_commands.specs.SolvedScopes.{scope_plan};

use command_answers::plan_between;
use gcu_output::{Outcome, say, say_memory, show_text};
use gcu_requests::{ScopeEnds, ScopesPlanning, prepare_scopes, refuse_scope};
use gcu_words::ScopesForm;
use host_core::{Host, Memory, Sequence, Txt};
use move_core::{Boxes, Ctx, Kit, Plan, plan_text};
use scopes::Scope;
use std::alloc::Global;

/// A scope with its plan.
#[derive(Drop)]
pub(crate) struct ScopePlan {
    pub scope: Scope,
    pub plan: Plan,
}

/// Prints the plans of all scopes, with nothing pending. The folder stays as it is.
pub(crate) fn plan_settled<H: Host>(
    alloc: Global,
    change: ScopesForm<'_>,
    kit: &mut Kit,
    host: &mut H,
) -> Outcome
    requires longest { longest_scoped_name ≤ H.longest_name }
    requires kinds { ⟦<Kit as Boxes>⟧.HasKinds kit.old }
    requires clean { IfSome (H.told host.old) (λ s. s.pending ≡ settled) }
    ensures kinds { ⟦<Kit as Boxes>⟧.HasKinds kit.new }
    ensures prints { PrintsPlans H.told H.counts H.moment H.left_since (scopes_view change.entry)
        host.old host.new result }
    ensures cause { HasCause (H.counts host.old) (H.counts host.new) result }
    ensures counts { NoneFell (H.counts host.old) (H.counts host.new) }
    ensures goes { H.goes_on host.old host.new }
    ensures form { result ≡ usage → ⊥ }
{
    match solve_scopes(alloc, change.patch, change.options.budget, kit, host) {
        Ok(plans) => show_plans(alloc, &plans, host),
        Err(outcome) => say(alloc, outcome, host),
    }
}

/// The plans of all scopes.
fn solve_scopes<H: Host>(
    alloc: Global,
    patch: &Txt,
    budget: u32,
    kit: &mut Kit,
    host: &mut H,
) -> Result<Sequence<ScopePlan>, Outcome>
    requires longest { longest_scoped_name ≤ H.longest_name }
    requires kinds { ⟦<Kit as Boxes>⟧.HasKinds kit.old }
    requires clean { IfSome (H.told host.old) (λ s. s.pending ≡ settled) }
    requires budget { 0 < budget }
    ensures kinds { ⟦<Kit as Boxes>⟧.HasKinds kit.new }
    ensures answer { Finds (H.told host.old) (map scope_plan) result
        (scopes_solved patch.now budget) }
    ensures still { IsStill H.told H.moment H.left_since host.old host.new }
    ensures counts { NoneFell (H.counts host.old) (H.counts host.new) }
    ensures cause { IfErr result (Refuses (H.counts host.old) (H.counts host.new)) }
    ensures goes { H.goes_on host.old host.new }
{
    let all = prepare_scopes(alloc, patch, budget, host)?;
    find_plans(alloc, kit, &all)
}

/// A plan for each scope, in order.
pub(crate) fn find_plans(
    alloc: Global,
    kit: &mut Kit,
    all: &ScopesPlanning,
) -> Result<Sequence<ScopePlan>, Outcome>
    requires kinds { ⟦<Kit as Boxes>⟧.HasKinds kit.old }
    requires ready { AreReady all.now.ctx all.now.scopes }
    requires budget { 0 < all.now.budget }
    ensures kinds { ⟦<Kit as Boxes>⟧.HasKinds kit.new }
    ensures answer { Found (map scope_plan) result (of_each solved_asked (plans_of all.now)) }
    ensures cause { IfErr result RefusesAlways }
{
    let mut plans = Sequence::new(alloc);
    for scope in all.scopes.items() {
        let found = find_one(alloc, kit, &all.ctx, scope, all.budget)?;
        plans.push(found)?;
    }
    Ok(plans)
}

/// A plan for a scope. That there is none is told with the scope and its number.
fn find_one(
    alloc: Global,
    kit: &mut Kit,
    ctx: &Ctx,
    from: &ScopeEnds,
    budget: u32,
) -> Result<ScopePlan, Outcome>
    requires kinds { ⟦<Kit as Boxes>⟧.HasKinds kit.old }
    requires ready { IsReadyBetween ctx.now from.now.ends }
    requires budget { 0 < budget }
    ensures kinds { ⟦<Kit as Boxes>⟧.HasKinds kit.new }
    ensures answer { Found scope_plan result
        (solved_asked (scope_planning ctx.now budget from.now)) }
    ensures cause { IfErr result RefusesAlways }
{
    let scope = from.scope;
    match plan_between(alloc, kit, ctx, &from.ends.stored, &from.ends.goal, budget) {
        Ok(plan) => Ok(ScopePlan { scope, plan }),
        Err(refusal) => Err(refuse_scope(alloc, scope, refusal)),
    }
}

/// Prints the plans, and the last line of Done.
fn show_plans<H: Host>(alloc: Global, plans: &Sequence<ScopePlan>, host: &mut H) -> Outcome
    ensures said { IsSaid done (scopes_text (map scope_plan plans.now) ++ last_line done)
        (H.told host.old) (H.told host.new) (H.counts host.old) (H.counts host.new) result }
    ensures counts { PrintMayRise (H.counts host.old) (H.counts host.new) }
    ensures time { Elapses H.moment H.left_since host.old host.new
        (LeftInText (scopes_text (map scope_plan plans.now) ++ last_line done) (H.told host.old)) }
    ensures goes { H.goes_on host.old host.new }
{
    match plans_text(alloc, plans) {
        Ok(text) => show_text(text, host),
        Err(Memory) => say_memory(host),
    }
}

/// The text of all plans.
pub(crate) fn plans_text(alloc: Global, plans: &Sequence<ScopePlan>) -> Result<Vec<u8>, Memory>
    ensures { IfOk result (λ b. b.items ≡ scopes_text (map scope_plan plans.now)) }
{
    let mut text = Vec::new(alloc);
    for plan in plans.items() {
        push_plan(alloc, plan, &mut text)?;
    }
    Ok(text)
}

/// Adds the line of a scope and its plan.
#[tactic(auto, using(std::proofs::Common::append_assoc))]
fn push_plan(alloc: Global, plan: &ScopePlan, text: &mut Vec<u8>) -> Result<(), Memory>
    ensures { OnOk result (text.new.items
        ≡ text.old.items ++ (scope_line plan.now.scope ++ text_of_plan plan.now.plan)) }
{
    let name = plan.scope.name(alloc)?;
    let name = name.as_str();
    let line = format!(in alloc; "scope {name}\n")?;
    let lines = plan_text(alloc, &plan.plan)?;
    text.extend_from_slice(line.as_bytes())?;
    text.extend_from_slice(lines.as_slice())?;
    Ok(())
}
