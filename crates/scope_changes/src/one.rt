//! The change of one scope done: its line, and its steps over the files of the scope.
ghost use Rattle.std.specs.Prelude.{◌≤◌, IfErr, IfSome, OnOk};
ghost use Rattle.host_core.specs.Names.{longest_scoped_name};
ghost use Rattle.conf_store.specs.Changes.{IsSettled};
ghost use Rattle.conf_store.specs.Folds.{StandsFor};
ghost use Rattle.change_apply.specs.Ends.{HasCause, MayRise};
ghost use Rattle.scopes.specs.Views.{seen_files};
ghost use Rattle.scope_changes.specs.Stages.{FinishesIn, FinishesOne, LeavesIn, LeavesOne, StopsIn, StopsOne};

use crate::ScopeChange;
use change_apply::{ApplyFault, Ready, run};
use host_core::Host;
use scopes::{Scope, ScopedHost};

/// Prints the line of a scope, and does its change. A change without steps prints and does nothing.
pub(crate) fn run_one<H: Host>(host: &mut H, change: &ScopeChange) -> Result<(), ApplyFault>
    requires longest { longest_scoped_name ≤ H.longest_name }
    requires clean { IfSome (H.told host.old) IsSettled }
    requires stands { IfSome (H.told host.old) (λ s.
        StandsFor change.now.change.stored (seen_files change.now.scope s.files)) }
    ensures ok { OnOk result (FinishesOne change.now (H.told host.old) (H.told host.new)) }
    ensures err { IfErr result
        (λ fault. StopsOne change.now fault (H.told host.old) (H.told host.new)) }
    ensures leaves { IfSome (H.told host.old)
        (LeavesOne H.moment H.left_since change.now host.old host.new) }
    ensures later { H.moment host.old ≤ H.moment host.new }
    ensures counts { MayRise (H.counts host.old) (H.counts host.new) }
    ensures cause { IfErr result (HasCause (H.counts host.old) (H.counts host.new)) }
    ensures goes { H.goes_on host.old host.new }
{
    if change.ready.steps() == 0 {
        return Ok(());
    }
    match host.print(change.line.as_str().as_bytes()) {
        Ok(()) => run_in_scope(host, change.scope, &change.ready),
        Err(_) => Err(ApplyFault::Print { step: 0 }),
    }
}

/// Does a change over the files of a scope.
fn run_in_scope<H: Host>(host: &mut H, scope: Scope, ready: &Ready) -> Result<(), ApplyFault>
    requires longest { longest_scoped_name ≤ H.longest_name }
    requires clean { IfSome (H.told host.old) IsSettled }
    requires stands { IfSome (H.told host.old) (λ s.
        StandsFor ready.now.stored (seen_files scope s.files)) }
    ensures ok { OnOk result (FinishesIn scope ready.now (H.told host.old) (H.told host.new)) }
    ensures err { IfErr result
        (λ fault. StopsIn scope ready.now fault (H.told host.old) (H.told host.new)) }
    ensures leaves { IfSome (H.told host.old)
        (LeavesIn H.moment H.left_since scope ready.now host.old host.new) }
    ensures later { H.moment host.old ≤ H.moment host.new }
    ensures counts { MayRise (H.counts host.old) (H.counts host.new) }
    ensures cause { IfErr result (HasCause (H.counts host.old) (H.counts host.new)) }
    ensures goes { H.goes_on host.old host.new }
{
    let mut view = ScopedHost::new(host, scope);
    run(&mut view, ready)
}
