//! The changes of several scopes, one after the other.
ghost use Rattle.std.specs.Prelude.{◌≤◌, IfErr, IfSome, OnOk};
ghost use Rattle.host_core.specs.Names.{longest_scoped_name};
ghost use Rattle.conf_store.specs.Changes.{IsSettled};
ghost use Rattle.change_apply.specs.Ends.{HasCause, MayRise};
ghost use Rattle.scope_changes.specs.Crashes.{IsLeftAmong, LeavesSince};
ghost use Rattle.scope_changes.specs.Ends.{AreReadyFor, FinishesAll, StopsAll};
ghost use Rattle.scope_changes.specs.Works.{AreInOrder};

use crate::ScopeChange;
use crate::faults::fault_behind;
use crate::one::run_one;
use change_apply::ApplyFault;
use host_core::{Host, Sequence};
use scopes::{asics_have_files_of_their_own, localhost_has_files_of_its_own};

/// Does the changes of several scopes in their order. For each that has steps it prints `apply NAME` and does
/// the change over the files of the scope, where the acknowledgements count from 1. A fault tells the steps that
/// were acknowledged in all scopes. Nothing may be pending, and the folder is as it was when the changes were
/// made ready. It takes no memory.
pub fn run_scopes<H: Host>(host: &mut H, changes: &Sequence<ScopeChange>) -> Result<(), ApplyFault>
    requires longest { longest_scoped_name ≤ H.longest_name }
    requires clean { IfSome (H.told host.old) IsSettled }
    requires order { AreInOrder changes.now }
    requires ready { IfSome (H.told host.old) (λ s. AreReadyFor changes.now s.files) }
    ensures ok { OnOk result (FinishesAll changes.now (H.told host.old) (H.told host.new)) }
    ensures err { IfErr result
        (λ fault. StopsAll changes.now fault (H.told host.old) (H.told host.new)) }
    // At each moment a crash leaves the scopes before one done, that one under way, and those after it as before.
    ensures any_moment { IfSome (H.told host.old) (λ s.
        LeavesSince H.moment H.left_since host.old host.new s (IsLeftAmong changes.now s)) }
    ensures later { H.moment host.old ≤ H.moment host.new }
    ensures counts { MayRise (H.counts host.old) (H.counts host.new) }
    ensures cause { IfErr result (HasCause (H.counts host.old) (H.counts host.new)) }
    ensures goes { H.goes_on host.old host.new }
{
    asics_have_files_of_their_own();
    localhost_has_files_of_its_own();
    let mut done = 0;
    for i in 0..changes.len() {
        let change = changes.at(i);
        let count = change.ready.steps();
        match run_one(host, change) {
            Ok(()) => done += count,
            Err(fault) => return Err(fault_behind(done, fault)),
        }
    }
    Ok(())
}
