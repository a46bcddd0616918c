//! The fault of one scope's change, told with the steps of the scopes before it.
ghost use Rattle.std.specs.Prelude.{◌≡◌, ◌+◌, ◌<◌, ◌^◌};
ghost use Rattle.host_core.specs.Counts.{Counts};
ghost use Rattle.change_apply.specs.Ends.{HasCause};
ghost use Rattle.scope_changes.specs.Ends.{behind_steps};
ghost use Rattle.scope_changes.specs.Stages.{step_of};

use change_apply::ApplyFault;

/// The fault behind so many steps of other scopes.
pub(crate) fn fault_behind(done: usize, fault: ApplyFault) -> ApplyFault
    ensures is { done + step_of fault < 2 ^ 64 → result ≡ behind_steps done fault }
    ensures cause { (old new : Counts) → HasCause old new fault → HasCause old new result }
{
    match fault {
        ApplyFault::Disk { step } => ApplyFault::Disk {
            step: done.saturating_add(step),
        },
        ApplyFault::Service { step, service } => ApplyFault::Service {
            step: done.saturating_add(step),
            service,
        },
        ApplyFault::Print { step } => ApplyFault::Print {
            step: done.saturating_add(step),
        },
    }
}
