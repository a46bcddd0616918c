//! A step acknowledged.
ghost use Rattle.std.specs.Prelude.{◌≡◌, ◌<◌, ◌≤◌, suc, IfErr, IfOk, OnOk, length};
ghost use Rattle.change_apply.specs.Acknowledgements.{ack};
ghost use Rattle.change_apply.specs.Change.{restarts_at};
ghost use Rattle.change_apply.specs.Crashes.{LeavesAt};
ghost use Rattle.change_apply.specs.Ends.{HasCause, MayRise, Stops};
ghost use Rattle.change_apply.specs.Stages.{AtPut, AtStep, HasStage, Leads};
ghost use Rattle.change_apply.specs.Work.{IsReady, change_in, count};

use crate::ApplyFault;
use crate::ready::Work;
use host_core::{Host, Memory, Txt};
use std::alloc::Global;

/// The acknowledgement of a step, counted from 1.
pub(crate) fn acknowledgement(alloc: Global, number: usize) -> Result<Txt, Memory>
    ensures { IfOk result (λ line. line ≡ ack number) }
{
    let line = format!(in alloc; "applied {number}\n")?;
    Ok(Txt::from(line))
}

/// Prints the acknowledgement of the step behind the first `k`.
pub(crate) fn acknowledge<H: Host>(host: &mut H, work: &Work, k: usize) -> Result<(), ApplyFault>
    requires ready { IsReady work.now }
    requires within { k < count work.now }
    requires stage { HasStage (AtPut (change_in work.now) k
        (length (restarts_at (change_in work.now) k))) (H.told host.old) }
    ensures ok { OnOk result (Leads (AtPut (change_in work.now) k
        (length (restarts_at (change_in work.now) k)))
        (AtStep (change_in work.now) (suc k)) (H.told host.old) (H.told host.new)) }
    ensures err { IfErr result (λ fault. Leads (AtPut (change_in work.now) k
        (length (restarts_at (change_in work.now) k)))
        (Stops (change_in work.now) fault) (H.told host.old) (H.told host.new)) }
    ensures any_moment { LeavesAt H.moment H.left_since H.told (change_in work.now)
        (AtPut (change_in work.now) k (length (restarts_at (change_in work.now) k)))
        host.old host.new }
    ensures later { H.moment host.old ≤ H.moment host.new }
    ensures counts { MayRise (H.counts host.old) (H.counts host.new) }
    ensures cause { IfErr result (HasCause (H.counts host.old) (H.counts host.new)) }
    ensures goes { H.goes_on host.old host.new }
{
    let line = work.steps.at(k).line.as_str();
    match host.print(line.as_bytes()) {
        Ok(()) => Ok(()),
        Err(_) => Err(ApplyFault::Print { step: k }),
    }
}
