//! `gcu apply-scopes PATCH`: a change of the scopes that a patch names, of which the plans are only printed with
//! `--dry-run`.
ghost use Rattle.std.specs.Prelude.{◌≡◌, ◌≤◌, IfSome};
ghost use Rattle.host_core.specs.Counts.{NoneFell};
ghost use Rattle.host_core.specs.Names.{longest_scoped_name};
ghost use Rattle.host_core.specs.State.{settled};
ghost use Rattle.gcu_output.specs.declared.outcomes.Outcome.TheVariants.{Usage as usage};
ghost use Rattle.gcu_words.specs.ScopesForm.{scopes_view};
ghost use Rattle.command_answers.specs.Answers.{HasCause};
ghost use Rattle.scope_commands.specs.SeveralScopes.{AppliesScopes, PrintsOrDoes};

use crate::change_scopes::change_settled;
use crate::laws::plans_of_scopes_are_one;
use crate::plan_scopes::plan_settled;
use gcu_output::{Outcome, say};
use gcu_words::ScopesForm;
use host_core::Host;
use move_core::{Boxes, Kit};
use scope_changes::scopes_keep_points;
use std::alloc::Global;

/// Settles what is pending, and does a change of several scopes.
pub fn apply_scopes<H: Host>(
    alloc: Global,
    change: ScopesForm<'_>,
    kit: &mut Kit,
    host: &mut H,
) -> Outcome
    requires longest { longest_scoped_name ≤ H.longest_name }
    requires kinds { ⟦<Kit as Boxes>⟧.HasKinds kit.old }
    ensures kinds { ⟦<Kit as Boxes>⟧.HasKinds kit.new }
    ensures applies { AppliesScopes H.told H.counts H.moment H.left_since
        (scopes_view change.entry) host.old host.new result }
    ensures cause { HasCause (H.counts host.old) (H.counts host.new) result }
    ensures counts { NoneFell (H.counts host.old) (H.counts host.new) }
    ensures goes { H.goes_on host.old host.new }
    ensures form { result ≡ usage → ⊥ }
{
    match host.settle() {
        Ok(()) => {
            scopes_keep_points();
            plans_of_scopes_are_one();
            apply_settled(alloc, change, kit, host)
        }
        Err(_) => say(alloc, Outcome::DiskFault { step: 0 }, host),
    }
}

/// Prints the plans of all scopes, and does them but for a dry run, with nothing pending.
fn apply_settled<H: Host>(
    alloc: Global,
    change: ScopesForm<'_>,
    kit: &mut Kit,
    host: &mut H,
) -> Outcome
    requires longest { longest_scoped_name ≤ H.longest_name }
    requires kinds { ⟦<Kit as Boxes>⟧.HasKinds kit.old }
    requires clean { IfSome (H.told host.old) (λ s. s.pending ≡ settled) }
    ensures kinds { ⟦<Kit as Boxes>⟧.HasKinds kit.new }
    ensures does { PrintsOrDoes H.told H.counts H.moment H.left_since
        change.entry.options.dry_run (scopes_view change.entry) host.old host.new result }
    ensures cause { HasCause (H.counts host.old) (H.counts host.new) result }
    ensures counts { NoneFell (H.counts host.old) (H.counts host.new) }
    ensures goes { H.goes_on host.old host.new }
    ensures form { result ≡ usage → ⊥ }
{
    if change.options.dry_run {
        plan_settled(alloc, change, kit, host)
    } else {
        change_settled(alloc, change, kit, host)
    }
}
