//! The folds before the first step and behind the last.
ghost use Rattle.std.specs.Prelude.{◌≡◌, ◌≤◌, ◌↔◌, [], false, IfErr, IsTrue, OnOk};
ghost use Rattle.host_core.specs.Names.{longest_plain_name};
ghost use Rattle.change_apply.specs.Crashes.{LeavesAt};
ghost use Rattle.change_apply.specs.Ends.{HasCause, MayRise, Stops};
ghost use Rattle.change_apply.specs.Stages.{AtFolded, AtIntent, AtStep, HasStage, Leads};
ghost use Rattle.change_apply.specs.Work.{IsReady, change_in, count};

use crate::ApplyFault;
use crate::ready::Work;
use conf_store::{Stored, fold};
use host_core::Host;

/// Folds what the folder holds, where there is something to fold.
pub(crate) fn fold_first<H: Host>(host: &mut H, work: &Work) -> Result<(), ApplyFault>
    requires longest { longest_plain_name ≤ H.longest_name }
    requires ready { IsReady work.now }
    requires stage { HasStage (AtIntent (change_in work.now)) (H.told host.old) }
    ensures ok { OnOk result (Leads (AtIntent (change_in work.now))
        (AtStep (change_in work.now) 0) (H.told host.old) (H.told host.new)) }
    ensures err { IfErr result (λ fault. Leads (AtIntent (change_in work.now))
        (Stops (change_in work.now) fault) (H.told host.old) (H.told host.new)) }
    ensures any_moment { LeavesAt H.moment H.left_since H.told (change_in work.now)
        (AtIntent (change_in work.now)) host.old host.new }
    ensures later { H.moment host.old ≤ H.moment host.new }
    ensures counts { MayRise (H.counts host.old) (H.counts host.new) }
    ensures cause { IfErr result (HasCause (H.counts host.old) (H.counts host.new)) }
    ensures goes { H.goes_on host.old host.new }
{
    if is_folded(&work.stored) {
        return Ok(());
    }
    match fold(host, &work.stored_text, &work.stored) {
        Ok(()) => Ok(()),
        Err(_) => Err(ApplyFault::Disk { step: 0 }),
    }
}

/// Whether there is nothing to fold in what was loaded.
fn is_folded(stored: &Stored) -> bool
    ensures { IsTrue result ↔ ((stored.now.steps ≡ []) × (stored.now.folded ≡ false)) }
{
    stored.steps.is_empty() && !stored.folded
}

/// Folds all steps.
pub(crate) fn fold_last<H: Host>(host: &mut H, work: &Work) -> Result<(), ApplyFault>
    requires longest { longest_plain_name ≤ H.longest_name }
    requires ready { IsReady work.now }
    requires stage { HasStage (AtStep (change_in work.now) (count work.now)) (H.told host.old) }
    ensures ok { OnOk result (Leads (AtStep (change_in work.now) (count work.now))
        (AtFolded (change_in work.now)) (H.told host.old) (H.told host.new)) }
    ensures err { IfErr result (λ fault. Leads (AtStep (change_in work.now) (count work.now))
        (Stops (change_in work.now) fault) (H.told host.old) (H.told host.new)) }
    ensures any_moment { LeavesAt H.moment H.left_since H.told (change_in work.now)
        (AtStep (change_in work.now) (count work.now)) host.old host.new }
    ensures later { H.moment host.old ≤ H.moment host.new }
    ensures counts { MayRise (H.counts host.old) (H.counts host.new) }
    ensures cause { IfErr result (HasCause (H.counts host.old) (H.counts host.new)) }
    ensures goes { H.goes_on host.old host.new }
{
    let step = work.steps.len();
    match fold(host, &work.goal_text, &work.goal) {
        Ok(()) => Ok(()),
        Err(_) => Err(ApplyFault::Disk { step }),
    }
}
