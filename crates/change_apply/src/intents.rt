//! The file `intent`, which holds the goal of a change while the change is under way.
ghost use Rattle.std.specs.Prelude.{◌<◌, ◌≤◌, IfErr, IfSome, OnErr, OnOk};
ghost use Rattle.host_core.specs.Counts.{DiskMayRise, Rose};
ghost use Rattle.host_core.specs.Crashes.{LeavesOnly};
ghost use Rattle.host_core.specs.Names.{longest_plain_name};
ghost use Rattle.host_core.specs.State.{CanMove};
ghost use Rattle.conf_store.specs.Changes.{AreLeft, Changes, Settles};
ghost use Rattle.conf_store.specs.Files.{intent_file};
ghost use Rattle.change_apply.specs.Crashes.{LeavesAt};
ghost use Rattle.change_apply.specs.Ends.{Finishes, HasCause, MayRise, Stops};
ghost use Rattle.change_apply.specs.Intents.{IsClosed, IsClosedOrNot};
ghost use Rattle.change_apply.specs.Stages.{AtBeginning, AtFolded, AtIntent, HasStage, Leads};
ghost use Rattle.change_apply.specs.Work.{IsReady, change_in, count};

use crate::ApplyFault;
use crate::ready::Work;
use conf_store::{INTENT_FILE, put_file, remove_file};
use host_core::{Failed, Host};

/// Removes `intent` and settles that, so that no change is under way. A crash at any moment leaves it there or
/// not, and all else as it was. Nothing may be pending, and `intent` is there. `Failed` comes only where the
/// disk count rose.
pub fn close<H: Host>(host: &mut H) -> Result<(), Failed>
    requires longest { longest_plain_name ≤ H.longest_name }
    requires ready { IfSome (H.told host.old) (CanMove intent_file) }
    ensures ok { OnOk result (Settles IsClosed (H.told host.old) (H.told host.new)) }
    // After `Failed` the files, as they read and as a crash leaves them, are with it or without.
    ensures err { OnErr result (Changes IsClosedOrNot (H.told host.old) (H.told host.new)) }
    // So they are at each moment.
    ensures any_moment { IfSome (H.told host.old)
        (λ s. LeavesOnly H.moment H.left_since host.old host.new (AreLeft IsClosedOrNot s)) }
    ensures later { H.moment host.old ≤ H.moment host.new }
    ensures counts { DiskMayRise (H.counts host.old) (H.counts host.new) }
    ensures cause { OnErr result (Rose (H.counts host.old).disk (H.counts host.new).disk) }
    ensures goes { H.goes_on host.old host.new }
{
    remove_file(host, INTENT_FILE)
}

/// Puts `intent` with the goal.
pub(crate) fn put_intent<H: Host>(host: &mut H, work: &Work) -> Result<(), ApplyFault>
    requires longest { longest_plain_name ≤ H.longest_name }
    requires ready { IsReady work.now }
    requires stage { HasStage (AtBeginning (change_in work.now)) (H.told host.old) }
    ensures ok { OnOk result (Leads (AtBeginning (change_in work.now))
        (AtIntent (change_in work.now)) (H.told host.old) (H.told host.new)) }
    ensures err { IfErr result (λ fault. Leads (AtBeginning (change_in work.now))
        (Stops (change_in work.now) fault) (H.told host.old) (H.told host.new)) }
    ensures any_moment { LeavesAt H.moment H.left_since H.told (change_in work.now)
        (AtBeginning (change_in work.now)) host.old host.new }
    ensures later { H.moment host.old ≤ H.moment host.new }
    ensures counts { MayRise (H.counts host.old) (H.counts host.new) }
    ensures cause { IfErr result (HasCause (H.counts host.old) (H.counts host.new)) }
    ensures goes { H.goes_on host.old host.new }
{
    match put_file(host, INTENT_FILE, &work.goal_text) {
        Ok(()) => Ok(()),
        Err(_) => Err(ApplyFault::Disk { step: 0 }),
    }
}

/// Removes `intent`, now that all is done.
pub(crate) fn remove_intent<H: Host>(host: &mut H, work: &Work) -> Result<(), ApplyFault>
    requires longest { longest_plain_name ≤ H.longest_name }
    requires some { 0 < count work.now }
    requires stage { HasStage (AtFolded (change_in work.now)) (H.told host.old) }
    ensures ok { OnOk result (Leads (AtFolded (change_in work.now))
        (Finishes (change_in work.now)) (H.told host.old) (H.told host.new)) }
    ensures err { IfErr result (λ fault. Leads (AtFolded (change_in work.now))
        (Stops (change_in work.now) fault) (H.told host.old) (H.told host.new)) }
    ensures any_moment { LeavesAt H.moment H.left_since H.told (change_in work.now)
        (AtFolded (change_in work.now)) host.old host.new }
    ensures later { H.moment host.old ≤ H.moment host.new }
    ensures counts { MayRise (H.counts host.old) (H.counts host.new) }
    ensures cause { IfErr result (HasCause (H.counts host.old) (H.counts host.new)) }
    ensures goes { H.goes_on host.old host.new }
{
    let step = work.steps.len();
    match close(host) {
        Ok(()) => Ok(()),
        Err(_) => Err(ApplyFault::Disk { step }),
    }
}
