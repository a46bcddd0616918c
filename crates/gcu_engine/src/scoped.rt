//! A command with `--scope`: the same command over the files of one ASIC.
ghost use Rattle.std.specs.Prelude.{◌≡◌, ◌≤◌, ℕ, List, IfSome, None};
ghost use Rattle.host_core.specs.Counts.{NoneFell};
ghost use Rattle.host_core.specs.Names.{longest_scoped_name};
ghost use Rattle.host_core.specs.State.{settled};
ghost use Rattle.gcu_output.specs.declared.outcomes.Outcome.TheVariants.{Usage as usage};
ghost use Rattle.gcu_words.specs.Form.{form};
ghost use Rattle.gcu_words.specs.FormView.{form_view};
ghost use Rattle.command_answers.specs.Answers.{HasCause};
ghost use Rattle.gcu_engine.specs.Scoped.{DoesInScope, RunsInScope};

use crate::Outcome;
use crate::run_form::run_form;
use gcu_output::say;
use gcu_words::{Form, ScopeForm};
use host_core::Host;
use move_core::{Boxes, Kit};
use scopes::{Scope, ScopedHost};
use std::alloc::Global;

/// Settles what is pending, and does a command over the files of a scope.
pub(crate) fn run_scoped<H: Host>(
    alloc: Global,
    scoped: ScopeForm<'_>,
    kit: &mut Kit,
    host: &mut H,
) -> Outcome
    requires longest { longest_scoped_name ≤ H.longest_name }
    requires kinds { ⟦<Kit as Boxes>⟧.HasKinds kit.old }
    ensures kinds { ⟦<Kit as Boxes>⟧.HasKinds kit.new }
    ensures runs { (words : List (List ℕ)) → form words ≡ form_view scoped.entry.form
        → DoesInScope H.told H.counts H.moment H.left_since scoped.entry.scope
        words host.old host.new result }
    ensures cause { HasCause (H.counts host.old) (H.counts host.new) result }
    ensures counts { NoneFell (H.counts host.old) (H.counts host.new) }
    ensures goes { H.goes_on host.old host.new }
    ensures usage { result ≡ usage → form_view scoped.entry.form ≡ None }
{
    match host.settle() {
        Ok(()) => run_settled(alloc, scoped.scope, scoped.form, kit, host),
        Err(_) => say(alloc, Outcome::DiskFault { step: 0 }, host),
    }
}

/// Does a command over the files of a scope, with nothing pending.
fn run_settled<H: Host>(
    alloc: Global,
    scope: Scope,
    command: Form<'_>,
    kit: &mut Kit,
    host: &mut H,
) -> Outcome
    requires longest { longest_scoped_name ≤ H.longest_name }
    requires kinds { ⟦<Kit as Boxes>⟧.HasKinds kit.old }
    requires ready { IfSome (H.told host.old) (λ s. s.pending ≡ settled) }
    ensures kinds { ⟦<Kit as Boxes>⟧.HasKinds kit.new }
    ensures runs { (words : List (List ℕ)) → form words ≡ form_view command.entry
        → RunsInScope H.told H.counts H.moment H.left_since scope words host.old host.new result }
    ensures cause { HasCause (H.counts host.old) (H.counts host.new) result }
    ensures counts { NoneFell (H.counts host.old) (H.counts host.new) }
    ensures goes { H.goes_on host.old host.new }
    ensures usage { result ≡ usage → form_view command.entry ≡ None }
{
    let mut view = ScopedHost::new(host, scope);
    run_form(alloc, command, kit, &mut view)
}
