//! The steps of a change, one after the other.
ghost use Rattle.std.specs.Prelude.{◌<◌, ◌≤◌, suc, IfErr, OnOk};
ghost use Rattle.host_core.specs.Names.{longest_plain_name};
ghost use Rattle.change_apply.specs.Crashes.{LeavesAt};
ghost use Rattle.change_apply.specs.Ends.{HasCause, MayRise, Stops};
ghost use Rattle.change_apply.specs.Stages.{AtPut, AtStep, HasStage, Leads};
ghost use Rattle.change_apply.specs.Work.{IsReady, change_in, count};

use crate::ApplyFault;
use crate::acknowledging::acknowledge;
use crate::ready::Work;
use crate::restarting::restart_services;
use conf_store::put_step;
use host_core::Host;

/// Does all steps.
pub(crate) fn do_steps<H: Host>(host: &mut H, work: &Work) -> Result<(), ApplyFault>
    requires longest { longest_plain_name ≤ H.longest_name }
    requires ready { IsReady work.now }
    requires stage { HasStage (AtStep (change_in work.now) 0) (H.told host.old) }
    ensures ok { OnOk result (Leads (AtStep (change_in work.now) 0)
        (AtStep (change_in work.now) (count work.now)) (H.told host.old) (H.told host.new)) }
    ensures err { IfErr result (λ fault. Leads (AtStep (change_in work.now) 0)
        (Stops (change_in work.now) fault) (H.told host.old) (H.told host.new)) }
    ensures any_moment { LeavesAt H.moment H.left_since H.told (change_in work.now)
        (AtStep (change_in work.now) 0) host.old host.new }
    ensures later { H.moment host.old ≤ H.moment host.new }
    ensures counts { MayRise (H.counts host.old) (H.counts host.new) }
    ensures cause { IfErr result (HasCause (H.counts host.old) (H.counts host.new)) }
    ensures goes { H.goes_on host.old host.new }
{
    for k in 0..work.steps.len() {
        do_step(host, work, k)?;
    }
    Ok(())
}

/// Does the step behind the first `k`: puts its file, restarts its services, acknowledges it.
fn do_step<H: Host>(host: &mut H, work: &Work, k: usize) -> Result<(), ApplyFault>
    requires longest { longest_plain_name ≤ H.longest_name }
    requires ready { IsReady work.now }
    requires within { k < count work.now }
    requires stage { HasStage (AtStep (change_in work.now) k) (H.told host.old) }
    ensures ok { OnOk result (Leads (AtStep (change_in work.now) k)
        (AtStep (change_in work.now) (suc k)) (H.told host.old) (H.told host.new)) }
    ensures err { IfErr result (λ fault. Leads (AtStep (change_in work.now) k)
        (Stops (change_in work.now) fault) (H.told host.old) (H.told host.new)) }
    ensures any_moment { LeavesAt H.moment H.left_since H.told (change_in work.now)
        (AtStep (change_in work.now) k) host.old host.new }
    ensures later { H.moment host.old ≤ H.moment host.new }
    ensures counts { MayRise (H.counts host.old) (H.counts host.new) }
    ensures cause { IfErr result (HasCause (H.counts host.old) (H.counts host.new)) }
    ensures goes { H.goes_on host.old host.new }
{
    put_next(host, work, k)?;
    restart_services(host, work, k)?;
    acknowledge(host, work, k)
}

/// Puts the file of a step.
fn put_next<H: Host>(host: &mut H, work: &Work, k: usize) -> Result<(), ApplyFault>
    requires longest { longest_plain_name ≤ H.longest_name }
    requires ready { IsReady work.now }
    requires within { k < count work.now }
    requires stage { HasStage (AtStep (change_in work.now) k) (H.told host.old) }
    ensures ok { OnOk result (Leads (AtStep (change_in work.now) k)
        (AtPut (change_in work.now) k 0) (H.told host.old) (H.told host.new)) }
    ensures err { IfErr result (λ fault. Leads (AtStep (change_in work.now) k)
        (Stops (change_in work.now) fault) (H.told host.old) (H.told host.new)) }
    ensures any_moment { LeavesAt H.moment H.left_since H.told (change_in work.now)
        (AtStep (change_in work.now) k) host.old host.new }
    ensures later { H.moment host.old ≤ H.moment host.new }
    ensures counts { MayRise (H.counts host.old) (H.counts host.new) }
    ensures cause { IfErr result (HasCause (H.counts host.old) (H.counts host.new)) }
    ensures goes { H.goes_on host.old host.new }
{
    let step = work.steps.at(k);
    match put_step(host, step.file.as_str(), &step.bytes) {
        Ok(()) => Ok(()),
        Err(_) => Err(ApplyFault::Disk { step: k }),
    }
}
