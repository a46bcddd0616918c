//! A change done: its steps, each acknowledged, the folds around them, and `intent` around all.
ghost use Rattle.std.specs.Prelude.{◌<◌, ◌≤◌, IfErr, IfSome, OnOk};
ghost use Rattle.host_core.specs.Crashes.{LeavesOnly};
ghost use Rattle.host_core.specs.Names.{longest_plain_name};
ghost use Rattle.conf_store.specs.Changes.{IsSettled};
ghost use Rattle.conf_store.specs.Folds.{StandsFor};
ghost use Rattle.change_apply.specs.Crashes.{IsLeft, LeavesAt};
ghost use Rattle.change_apply.specs.Ends.{Finishes, HasCause, MayRise, Stops};
ghost use Rattle.change_apply.specs.Stages.{AtBeginning, AtStep, HasStage, Leads};
ghost use Rattle.change_apply.specs.Work.{IsReady, change_in, count};

use crate::folds::{fold_first, fold_last};
use crate::intents::{put_intent, remove_intent};
use crate::ready::Work;
use crate::steps::do_steps;
use crate::{ApplyFault, Ready};
use host_core::Host;

/// Does a change. First `intent` is put with the file text of the goal. Where step files or
/// `config_db.folded` are there they are folded. Then, step by step, its file is put, its services are
/// restarted in order, and it is acknowledged by the line `applied K`. After the last step all is folded, and
/// `intent` is removed. A change without steps does nothing. Nothing may be pending, and the folder is as it
/// was when the change was made ready.
pub fn run<H: Host>(host: &mut H, ready: &Ready) -> Result<(), ApplyFault>
    requires longest { longest_plain_name ≤ H.longest_name }
    requires clean { IfSome (H.told host.old) IsSettled }
    requires stands { IfSome (H.told host.old) (λ s. StandsFor ready.now.stored s.files) }
    ensures ok { OnOk result (Finishes ready.now (H.told host.old) (H.told host.new)) }
    ensures err { IfErr result
        (λ fault. Stops ready.now fault (H.told host.old) (H.told host.new)) }
    // At each moment a crash leaves the last acknowledged configuration or the next.
    ensures any_moment { IfSome (H.told host.old)
        (λ s. LeavesOnly H.moment H.left_since host.old host.new (IsLeft ready.now s)) }
    ensures later { H.moment host.old ≤ H.moment host.new }
    ensures counts { MayRise (H.counts host.old) (H.counts host.new) }
    ensures cause { IfErr result (HasCause (H.counts host.old) (H.counts host.new)) }
    ensures goes { H.goes_on host.old host.new }
{
    let work = &ready.work;
    if work.steps.is_empty() {
        return Ok(());
    }
    begin_change(host, work)?;
    do_steps(host, work)?;
    end_change(host, work)
}

/// Puts `intent`, and folds what the folder holds.
fn begin_change<H: Host>(host: &mut H, work: &Work) -> Result<(), ApplyFault>
    requires longest { longest_plain_name ≤ H.longest_name }
    requires ready { IsReady work.now }
    requires stage { HasStage (AtBeginning (change_in work.now)) (H.told host.old) }
    ensures ok { OnOk result (Leads (AtBeginning (change_in work.now))
        (AtStep (change_in work.now) 0) (H.told host.old) (H.told host.new)) }
    ensures err { IfErr result (λ fault. Leads (AtBeginning (change_in work.now))
        (Stops (change_in work.now) fault) (H.told host.old) (H.told host.new)) }
    ensures any_moment { LeavesAt H.moment H.left_since H.told (change_in work.now)
        (AtBeginning (change_in work.now)) host.old host.new }
    ensures later { H.moment host.old ≤ H.moment host.new }
    ensures counts { MayRise (H.counts host.old) (H.counts host.new) }
    ensures cause { IfErr result (HasCause (H.counts host.old) (H.counts host.new)) }
    ensures goes { H.goes_on host.old host.new }
{
    put_intent(host, work)?;
    fold_first(host, work)
}

/// Folds all steps, and removes `intent`.
fn end_change<H: Host>(host: &mut H, work: &Work) -> Result<(), ApplyFault>
    requires longest { longest_plain_name ≤ H.longest_name }
    requires ready { IsReady work.now }
    requires some { 0 < count work.now }
    requires stage { HasStage (AtStep (change_in work.now) (count work.now)) (H.told host.old) }
    ensures ok { OnOk result (Leads (AtStep (change_in work.now) (count work.now))
        (Finishes (change_in work.now)) (H.told host.old) (H.told host.new)) }
    ensures err { IfErr result (λ fault. Leads (AtStep (change_in work.now) (count work.now))
        (Stops (change_in work.now) fault) (H.told host.old) (H.told host.new)) }
    ensures any_moment { LeavesAt H.moment H.left_since H.told (change_in work.now)
        (AtStep (change_in work.now) (count work.now)) host.old host.new }
    ensures later { H.moment host.old ≤ H.moment host.new }
    ensures counts { MayRise (H.counts host.old) (H.counts host.new) }
    ensures cause { IfErr result (HasCause (H.counts host.old) (H.counts host.new)) }
    ensures goes { H.goes_on host.old host.new }
{
    fold_last(host, work)?;
    remove_intent(host, work)
}
