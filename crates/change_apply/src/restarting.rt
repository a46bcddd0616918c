//! The services of a step restarted.
ghost use Rattle.std.specs.Prelude.{◌<◌, ◌≤◌, IfErr, OnOk, length};
ghost use Rattle.change_apply.specs.Change.{restarts_at};
ghost use Rattle.change_apply.specs.Crashes.{LeavesAt};
ghost use Rattle.change_apply.specs.Ends.{HasCause, MayRise, Stops};
ghost use Rattle.change_apply.specs.Stages.{AtPut, HasStage, Leads};
ghost use Rattle.change_apply.specs.Work.{IsReady, change_in, count};

use crate::ApplyFault;
use crate::ready::Work;
use host_core::Host;

/// Requests the restarts of the step behind the first `k`, in order.
pub(crate) fn restart_services<H: Host>(
    host: &mut H,
    work: &Work,
    k: usize,
) -> Result<(), ApplyFault>
    requires ready { IsReady work.now }
    requires within { k < count work.now }
    requires stage { HasStage (AtPut (change_in work.now) k 0) (H.told host.old) }
    ensures ok { OnOk result (Leads (AtPut (change_in work.now) k 0)
        (AtPut (change_in work.now) k (length (restarts_at (change_in work.now) k)))
        (H.told host.old) (H.told host.new)) }
    ensures err { IfErr result (λ fault. Leads (AtPut (change_in work.now) k 0)
        (Stops (change_in work.now) fault) (H.told host.old) (H.told host.new)) }
    ensures any_moment { LeavesAt H.moment H.left_since H.told (change_in work.now)
        (AtPut (change_in work.now) k 0) host.old host.new }
    ensures later { H.moment host.old ≤ H.moment host.new }
    ensures counts { MayRise (H.counts host.old) (H.counts host.new) }
    ensures cause { IfErr result (HasCause (H.counts host.old) (H.counts host.new)) }
    ensures goes { H.goes_on host.old host.new }
{
    let restarts = work.steps.at(k).restarts.items();
    for restart in restarts {
        if host.restart(restart.name.as_str()).is_err() {
            let service = restart.service;
            return Err(ApplyFault::Service { step: k, service });
        }
    }
    Ok(())
}
